// Why bytes make no cipher, as it is shown.
use kcipher::bytes::{NoCipher, cipher_of};
use keys::refusal::KeyRefusal;
use spelling::fault::{Fault, Reason};
use std::test::Fail;

#[test]
fn a_spoilt_draft_is_told_as_its_fault(rt: HostRuntime) -> Result<(), Fail> {
    let refused = cipher_of(&[b'W', 23], &[]).err();
    let fault = Fault {
        reason: Reason::BadWidth,
        offset: 0,
    };
    assert_eq!(rt; refused, Some(NoCipher::Draft(fault)));
    let shown = format!(in rt.alloc(); "{}", NoCipher::Draft(fault))?;
    assert_eq!(rt;
        shown.as_str(),
        "refused 5 offset 0 layer commands: the width is not 24 to 64"
    );
    Ok(())
}

#[test]
fn a_key_is_told_by_number_and_words(rt: HostRuntime) -> Result<(), Fail> {
    let refused = NoCipher::Key(KeyRefusal::WrongLength);
    let shown = format!(in rt.alloc(); "{refused}")?;
    assert_eq!(rt;
        shown.as_str(),
        "refused 11: the key has not the bytes that its bits fill"
    );
    Ok(())
}

// One line, which no width fills up.
#[test]
fn why_there_is_no_cipher_is_one_line(rt: HostRuntime) -> Result<(), Fail> {
    let heap = rt.alloc();
    let last_place = Fault {
        reason: Reason::NoOrder(63),
        offset: usize::MAX,
    };
    let no_byte = Fault {
        reason: Reason::NoByte,
        offset: 0,
    };
    let table = [
        (
            NoCipher::Draft(last_place),
            "refused 7 offset 18446744073709551615 layer orders place 63: the list is no order",
        ),
        (
            NoCipher::Draft(no_byte),
            "refused 1 offset 0 layer bytes: the draft ends too early",
        ),
        (
            NoCipher::Key(KeyRefusal::ShortWorkSpace),
            "refused 10: the work space has fewer than 24 bytes",
        ),
        (
            NoCipher::Key(KeyRefusal::WrongLength),
            "refused 11: the key has not the bytes that its bits fill",
        ),
        (
            NoCipher::Key(KeyRefusal::SpareBits),
            "refused 12: a spare bit of the key's last byte is not 0",
        ),
    ];
    for (refused, line) in table {
        assert_eq!(rt; format!(in heap; "{refused}")?.as_str(), line);
        assert_eq!(rt; format!(in heap; "{refused:#}")?.as_str(), line);
        assert_eq!(rt; format!(in heap; "{refused:>60}")?.as_str(), line);
    }
    Ok(())
}
