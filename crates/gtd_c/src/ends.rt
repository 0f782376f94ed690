//! The end of a handle.

ghost use Rattle.std.specs.Prelude.{◌≡◌, None};
ghost use Rattle.gtd_handles.specs.Holding.{thing_of};

use gtd_handles::Handle;
use std::alloc::Global;

/// Ends what the handle stands for. The handle is then empty.
#[unsafe(no_mangle)]
pub extern "C" fn gtd_close(alloc: Global, handle: &mut Handle)
    ensures closed { thing_of handle.new ≡ None }
{
    *handle = Handle::none(alloc);
}
