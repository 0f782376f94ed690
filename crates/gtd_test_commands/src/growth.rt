//! How a test tells `tests/refusals.sh` where its calls begin that take no memory.

use std::alloc::Global;

/// So many bytes are asked for nowhere else: `tests/refusals.sh` knows the number.
const SWITCH: usize = 7_654_321;

/// If the script runs the test: the first call makes all growths fail from here on, and the second ends this.
pub(crate) fn switch(alloc: Global) {
    if let Ok(mut bytes) = Vec::<u8>::with_capacity(alloc, SWITCH) {
        let _ = bytes.push(1);
    }
}
