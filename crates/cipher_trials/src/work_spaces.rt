// What becomes of the work space.
use crate::sample::plain;
use kcipher::make::make;
use keys::refusal::KeyRefusal;
use spelling::parts::Flow;
use std::test::Fail;

// Bytes that are no zeros, as many as asked for.
fn used<const N: usize>() -> [u8; N] {
    [0xaa; N]
}

#[test]
fn a_short_work_space_is_refused_first_and_not_touched(rt: HostRuntime) -> Result<(), Fail> {
    let draft = plain(rt.alloc(), 33, Flow::Flex)?;
    let mut work = used::<23>();
    let refusal = make(&draft, &[0; 3], &mut work).err();
    assert_eq!(rt; refusal, Some(KeyRefusal::ShortWorkSpace));
    assert_eq!(rt; work, used::<23>());
    assert_eq!(rt;
        make(&draft, &[0; 16], &mut []).err(),
        Some(KeyRefusal::ShortWorkSpace)
    );
    Ok(())
}

#[test]
fn its_first_24_bytes_end_as_zeros_and_the_others_stay(rt: HostRuntime) -> Result<(), Fail> {
    let draft = plain(rt.alloc(), 33, Flow::Flex)?;
    let cpa = plain(rt.alloc(), 33, Flow::Cpa)?;
    let mut spare = [0; 41];
    spare[40] = 0x40;
    for (draft, key, refused) in [
        (&draft, &[7; 16][..], None),
        (&draft, &[7; 17][..], Some(KeyRefusal::WrongLength)),
        (&cpa, &[7; 17][..], Some(KeyRefusal::WrongLength)),
        (&cpa, &spare[..], Some(KeyRefusal::SpareBits)),
    ] {
        let mut exact = used::<24>();
        assert_eq!(rt; make(draft, key, &mut exact).err(), refused);
        assert_eq!(rt; exact, [0; 24]);
        let mut longer = used::<25>();
        assert_eq!(rt; make(draft, key, &mut longer).err(), refused);
        assert_eq!(rt; longer.first_chunk(), Some(&[0; 24]));
        assert_eq!(rt; longer[24], 0xaa);
    }
    Ok(())
}
