ghost use Rattle.dl_transcript.specs.Laws.{GoesOn, EachRuleBinds};

/// A law: a legal transcript goes on as what follows it does, from what was seen by then.
pub fn legal_goes_on()
    ensures { GoesOn }
{}

/// A law: each rule of a legal transcript binds. A small transcript that breaks this rule alone has
/// its first fault there.
pub fn each_rule_binds()
    ensures { EachRuleBinds }
{}
