use frame_codec::{
    BUNDLE, FRAME_BYTES, FrameFault, FrameView, FrameWriter, PROOF, bytes_at, put_bytes, put_u8,
    put_u16, put_u32, put_u64, split_frame, u8_at, u16_at, u32_at, u64_at, write_want,
};
use rp_base::NoMemory;

// A Bundle of one group: its statement, and the signature of process 3.
const FRAME: [u8; 20] = [
    1, 1, 1, 0, 9, 1, 0, 0, 0, 0, 0, 2, 0x68, 0x69, 1, 3, 0, 2, 0xaa, 0xbb,
];

const END: [u8; 5] = [7, 0, 0, 0, 3];

const RENEW: [u8; 5] = [6, 0, 0, 3, 0];

#[test]
fn a_frame_cut_everywhere(rt: HostRuntime) {
    assert!(rt; split_frame(&FRAME).is_ok());
    for len in 0..FRAME.len() {
        let fault = match len {
            0..=4 | 14..=17 => FrameFault::Short,
            _ => FrameFault::Length,
        };
        assert_eq!(rt;
            split_frame(&FRAME[..len]).err(),
            Some(fault),
            "cut to {len}"
        );
    }
    let mut longer = [0; 21];
    longer[..20].copy_from_slice(&FRAME);
    assert_eq!(rt; split_frame(&longer).err(), Some(FrameFault::Trailing));
    let mut unsigned = FRAME;
    unsigned[14] = 0;
    assert_eq!(rt; split_frame(&unsigned).err(), Some(FrameFault::Count));
}

// The signers of the claims in a Bundle, a digit each.
fn signers_of(bytes: &[u8]) -> Option<u32> {
    let Ok(FrameView::Bundle(groups)) = split_frame(bytes) else {
        return None;
    };
    let mut signers = 0u32;
    for group in groups {
        for (signer, _) in group.signatures {
            signers = signers.wrapping_mul(10).wrapping_add(signer as u32);
        }
    }
    Some(signers)
}

#[test]
fn claims_are_written_and_read_again(rt: HostRuntime) -> Result<(), NoMemory> {
    let mut writer = FrameWriter::new(rt.alloc(), BUNDLE, FRAME_BYTES)?;
    let added = [
        writer.add(&END, 1, &[0xaa, 0xbb]),
        writer.add(&END, 3, &[0xcc]),
        writer.add(&END, 2, &[0xdd]),
        writer.add(&RENEW, 5, &[]),
    ];
    assert!(rt; added == [true; 4]);
    let expected = [
        1, 1, 3, 0, 5, 7, 0, 0, 0, 3, 2, 1, 0, 2, 0xaa, 0xbb, 3, 0, 1, 0xcc, 0, 5, 7, 0, 0, 0, 3,
        1, 2, 0, 1, 0xdd, 0, 5, 6, 0, 0, 3, 0, 1, 5, 0, 0,
    ];
    assert_eq!(rt; writer.frame(), expected.as_slice());
    assert!(rt; signers_of(writer.frame()) == Some(1325));
    Ok(())
}

#[test]
fn a_claim_past_the_room_changes_nothing(rt: HostRuntime) -> Result<(), NoMemory> {
    let mut writer = FrameWriter::new(rt.alloc(), PROOF, 20)?;
    assert!(rt; writer.add(&END, 1, &[0xaa, 0xbb]));
    assert!(rt; writer.add(&END, 2, &[0xcc]));
    assert!(rt; !writer.add(&END, 2, &[]));
    let expected = [
        1, 2, 1, 0, 5, 7, 0, 0, 0, 3, 2, 1, 0, 2, 0xaa, 0xbb, 2, 0, 1, 0xcc,
    ];
    assert_eq!(rt; writer.frame(), expected.as_slice());
    Ok(())
}

#[test]
fn a_want_is_read_again(rt: HostRuntime) {
    let bytes = write_want(513, 772);
    assert_eq!(rt; bytes, [1, 3, 2, 1, 3, 4]);
    assert!(rt;
        matches!(
            split_frame(&bytes),
            Ok(FrameView::Want {
                view: 513,
                place: 772
            })
        )
    );
}

#[test]
fn fields_are_written_and_read_again(rt: HostRuntime) {
    let mut out = [0; 17];
    let at = put_u8(&mut out, 0, 1);
    let at = put_u16(&mut out, at, 0x0203);
    let at = put_u32(&mut out, at, 0x0405_0607);
    let at = put_u64(&mut out, at, 0x0809_0a0b_0c0d_0e0f);
    let at = put_bytes(&mut out, at, &[16, 17]);
    assert_eq!(rt; at, 17);
    assert_eq!(rt;
        out,
        [1, 2, 3, 4, 5, 6, 7, 8, 9, 10, 11, 12, 13, 14, 15, 16, 17]
    );
    assert_eq!(rt;
        read_all(&out),
        Ok((1, 0x0203, 0x0405_0607, 0x0809_0a0b_0c0d_0e0f, 2))
    );
    assert_eq!(rt; read_all(&out[..14]), Err("short"));
}

// One field of each kind, and how many bytes follow them.
fn read_all(bytes: &[u8]) -> Result<(u8, u16, u32, u64, usize), &'static str> {
    let (one, rest) = u8_at(bytes, "short")?;
    let (two, rest) = u16_at(rest, "short")?;
    let (four, rest) = u32_at(rest, "short")?;
    let (eight, rest) = u64_at(rest, "short")?;
    let (last, _) = bytes_at(rest, 2, "short")?;
    Ok((one, two, four, eight, last.len()))
}
