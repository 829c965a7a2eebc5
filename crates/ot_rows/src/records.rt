//! The words of the log's records, as the format lists them.
use ot_log_format::{RecordWord, soundness_law};
use std::test::Fail;

const LISTED: &[(&[u8], RecordWord)] = &[
    (b"tyvar", RecordWord::TyVar),
    (b"lam", RecordWord::Lam),
    (b"deductAntisym", RecordWord::DeductAntisym),
    (b"constants", RecordWord::Constants),
    (b"typeOperator", RecordWord::TypeOperator),
    (b"result", RecordWord::Result),
];

#[test]
fn words(rt: HostRuntime) -> Result<(), Fail> {
    for &(text, word) in LISTED {
        assert!(rt; RecordWord::find(text) == Some(word));
        assert!(rt; word.text() == text);
    }
    assert!(rt; RecordWord::find(b"axiom") == None);
    soundness_law();
    Ok(())
}
