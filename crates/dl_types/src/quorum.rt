ghost use Rattle.std.specs.Prelude.{◌≡◌, ◌↔◌, IsOk, IfOk};
ghost use Rattle.dl_types.specs.Quorums.{IsQuorum};

use crate::bad_quorum::BadQuorum;

/// How the entries of a ledger are replicated (BookKeeper documentation, "Ledgers": ensemble size, write quorum and ack
/// quorum). Its rule is 16 >= e >= qw >= qa >= 1.
#[derive(Clone, Copy, Debug, PartialEq, Eq)]
pub struct Quorum {
    /// The ensemble size: how many bookies a ledger is spread over.
    pub e: u8,
    /// The write quorum: how many bookies of the ensemble each entry is sent to.
    pub qw: u8,
    /// The ack quorum: how many of them must hold an entry before it counts as confirmed.
    pub qa: u8,
    pub ghost rule: { IsQuorum e qw qa },
}

impl Quorum {
    /// The quorum of these numbers. `BadQuorum` comes exactly where they break the rule.
    pub fn new(e: u8, qw: u8, qa: u8) -> Result<Quorum, BadQuorum>
        ensures exact { IsOk result ↔ IsQuorum e qw qa }
        ensures e { IfOk result (λ q. q.e ≡ e) }
        ensures qw { IfOk result (λ q. q.qw ≡ qw) }
        ensures qa { IfOk result (λ q. q.qa ≡ qa) }
    {
        if 16 >= e && e >= qw && qw >= qa && qa >= 1 {
            Ok(Quorum { e, qw, qa })
        } else {
            Err(BadQuorum)
        }
    }
}
