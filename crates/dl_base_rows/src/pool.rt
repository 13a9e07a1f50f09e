ghost use Rattle.std.specs.Prelude.{◌≡◌, length};
ghost use Rattle.dl_pool.specs.Pools.{IsLive};

use dl_pool::pool::Pool;
use dl_pool::span::Span;
use std::test::Fail;

/// Whether the parts of a piece join to these bytes, in so many parts.
fn joins(pool: &Pool, span: &Span, bytes: &[u8], parts: usize) -> bool
    requires { IsLive pool.now span.now }
{
    let mut rest = bytes;
    let mut count = 0usize;
    for part in pool.parts(span) {
        if part.len() > rest.len() || part != &rest[..part.len()] {
            return false;
        }
        rest = &rest[part.len()..];
        count = count.saturating_add(1);
    }
    rest.is_empty() && count == parts
}

#[test]
fn a_full_pool_keeps_its_pieces(rt: HostRuntime) -> Result<(), Fail> {
    let mut pool = Pool::new(rt.alloc(), 3)?;
    let eight = vec![in rt.alloc(); 7u8; 8192]?;
    let four = vec![in rt.alloc(); 9u8; 4096]?;
    let first = pool.put(&eight)?;
    assert_eq!(rt; pool.spare(), 1);
    let second = pool.put(&four)?;
    assert_eq!(rt; pool.spare(), 0);
    let Err(_full) = pool.put(&[1]) else {
        assert!(rt; false, "room for a byte");
        return Ok(());
    };
    assert_eq!(rt; pool.spare(), 0);
    assert!(rt; joins(&pool, &first, &eight, 2));
    assert!(rt; joins(&pool, &second, &four, 1));
    Ok(())
}

#[test]
fn freed_pages_need_not_be_neighbours(rt: HostRuntime) -> Result<(), Fail> {
    let mut pool = Pool::new(rt.alloc(), 3)?;
    let page = vec![in rt.alloc(); 1u8; 4096]?;
    let first = pool.put(&page)?;
    let _kept = pool.put(&page)?;
    let last = pool.put(&page)?;
    pool.free(last);
    pool.free(first);
    assert_eq!(rt; pool.spare(), 2);
    let more = vec![in rt.alloc(); 5u8; 4097]?;
    let span = pool.put(&more)?;
    assert_eq!(rt; pool.spare(), 0);
    assert!(rt; joins(&pool, &span, &more, 2));
    let mut out = [0u8; 4097];
    pool.copy_out(&span, &mut out);
    assert_eq!(rt; out.as_slice(), more.as_slice());
    Ok(())
}

#[test]
fn pages_are_counted_whole(rt: HostRuntime) -> Result<(), Fail> {
    for (size, left) in [(0, 4), (1, 3), (4096, 3), (4097, 2), (8192, 2), (8193, 1)] {
        let mut pool = Pool::new(rt.alloc(), 4)?;
        let bytes = vec![in rt.alloc(); 3u8; size]?;
        let span = pool.put(&bytes)?;
        assert_eq!(rt; pool.spare(), left, "{size}");
        pool.free(span);
        assert_eq!(rt; pool.spare(), 4, "{size}");
    }
    let mut none = Pool::new(rt.alloc(), 0)?;
    assert!(rt; none.put(&[]).is_ok());
    assert!(rt; none.put(&[1]).is_err());
    Ok(())
}
