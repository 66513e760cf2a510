//! What a slice holds once a writer was called.
use std::process::Abort;

// What a slice holds before a writer is called.
pub(crate) const BLANK: u8 = b'#';

// The slice holds the text from `start` to `end`, and is blank before and after it.
pub(crate) fn check_written(rt: &impl Abort, out: &[u8], start: usize, end: usize, text: &[u8]) {
    assert!(rt; start <= end && end <= out.len());
    assert!(rt; &out[start..end] == text);
    assert!(rt; out[..start].iter().all(|byte| *byte == BLANK));
    assert!(rt; out[end..].iter().all(|byte| *byte == BLANK));
}
