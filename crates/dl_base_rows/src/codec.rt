use dl_codec::read::{get_u8, get_u16, get_u32, get_u64};
use dl_codec::short::Short;
use dl_codec::write::{put_u8, put_u16, put_u32, put_u64};
use std::test::Fail;

const BYTES: [u8; 9] = [1, 2, 3, 4, 5, 6, 7, 8, 9];

#[test]
fn reads_the_high_byte_first(rt: HostRuntime) -> Result<(), Fail> {
    let bytes = BYTES.as_slice();
    assert_eq!(rt; get_u8(bytes, 8), Ok(9));
    assert_eq!(rt; get_u16(bytes, 7), Ok(0x0809));
    assert_eq!(rt; get_u32(bytes, 5), Ok(0x0607_0809));
    assert_eq!(rt; get_u64(bytes, 1), Ok(0x0203_0405_0607_0809));
    Ok(())
}

#[test]
fn stops_where_a_field_is_cut_short(rt: HostRuntime) -> Result<(), Fail> {
    let bytes = BYTES.as_slice();
    assert_eq!(rt; get_u8(bytes, 9), Err(Short { at: 9 }));
    assert_eq!(rt; get_u16(bytes, 8), Err(Short { at: 8 }));
    assert_eq!(rt; get_u32(bytes, 6), Err(Short { at: 6 }));
    assert_eq!(rt; get_u64(bytes, 2), Err(Short { at: 2 }));
    assert_eq!(rt;
        get_u64(bytes, 18_446_744_073_709_551_615),
        Err(Short {
            at: 18_446_744_073_709_551_615
        })
    );
    Ok(())
}

#[test]
fn adds_fields_at_the_end(rt: HostRuntime) -> Result<(), Fail> {
    let alloc = rt.alloc();
    let mut out = Vec::new(alloc);
    put_u8(alloc, &mut out, 1)?;
    put_u16(alloc, &mut out, 0x0203)?;
    put_u32(alloc, &mut out, 0x0405_0607)?;
    put_u64(alloc, &mut out, 0x0809_0a0b_0c0d_0e0f)?;
    assert_eq!(rt;
        out.as_slice(),
        [1, 2, 3, 4, 5, 6, 7, 8, 9, 10, 11, 12, 13, 14, 15].as_slice()
    );
    Ok(())
}
