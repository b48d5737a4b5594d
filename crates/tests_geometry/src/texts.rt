// Fails unless a text is what is wanted. All tests compare by this function, since each `assert_eq!` takes seconds to
// prove.
use std::process::Abort;

pub fn has_text(rt: &impl Abort, text: &str, wanted: &str) {
    assert_eq!(rt; text, wanted);
}
