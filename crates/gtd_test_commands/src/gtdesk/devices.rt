//! How a command calls its output.

use crate::devices::uncalled;
use crate::gtdesk::plans::{performed, planned};
use gtdesk_tool::Ending;

/// Words of a command, and how often it offers something to its output.
static COMMANDS: [(&[&str], u64); 9] = [
    (&["now", "r.csv", "2024-04-01T10:00:00", "11"], 3),
    (&["faults", "r.csv"], 0),
    (&["faults", "--warn", "r.csv"], 0),
    (&["picture", "r.csv", "17", "positive", "11", "2024"], 368),
    (&["words", "[(M4d1){M3}]*[(h10){h4}]"], 1),
    (&["picture-domain", "(h10){h4}", "2024"], 368),
    (&["help"], 1),
    (&["hours", "--of", "(t2h0m0){d1}*(h7m0){m120}"], 1),
    (&["hours", "Mo 07:00-09:00"], 1),
];

// An output is offered each line of a report once, where it takes all of it, and is ended once.
#[test]
fn lines_and_ends_of_outputs(rt: HostRuntime) {
    let alloc = rt.alloc();
    for &(words, puts) in &COMMANDS {
        let plan = planned(&rt, alloc, words);
        let mut output = uncalled();
        let done = performed(&rt, alloc, &plan, &mut output);
        assert!(rt; done == Ok(Ending::Done), "{words:?}");
        assert!(rt; (output.puts, output.ends, output.is_ended) == (puts, 1, true));
    }
}
