use dl_lwrite_held::holder::Holder;
use dl_msg::msg::Msg;
use dl_types::ensemble::Ensemble;
use dl_types::quorum::Quorum;
use std::test::Fail;

#[test]
fn holds_a_writer(rt: HostRuntime) -> Result<(), Fail> {
    let alloc = rt.alloc();
    let q = Quorum::new(1, 1, 1)?;
    let mut holder = Holder::start(alloc, 0, 7, q, Ensemble::of(7, 1, 1))?;
    let msg = Msg::AddOk {
        ledger: 7,
        entry: 0,
    };
    assert_eq!(rt; holder.message(0, &msg), 0);
    Ok(())
}
