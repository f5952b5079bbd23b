//! Logs that are a history, and logs that no host may be let through with: functions without a body, for their clauses. The logs stand in
//! `specs/Histories.antt` and `specs/Refuted.antt`.
ghost use Rattle.storage_map.specs.Contents.{nothing};
ghost use Rattle.timeline.specs.Headline.{IsHistory};
ghost use Rattle.timeline.specs.Histories.{the_two, downed_front, downed_back, the_goes, thrown_front, thrown_back};
ghost use Rattle.timeline.specs.Refuted.{IsNeverQuiet, IsNoHistory, untold_front, untold_back, broken_front, broken_back};
ghost use Rattle.timeline.specs.Refuted.{halted_front, halted_back, gone_front, gone_back, twice_front, twice_back};

/// A slot that is down is a history: the reply behind the failed flight is reset, and a second call is answered by `Down`.
pub fn downed_is_a_history()
    ensures { IsHistory the_two 0 nothing downed_front downed_back }
{}

/// So is one whose script ended an incarnation: its call is reset, and what it wrote is kept.
pub fn throw_out_of_a_block_is_a_history()
    ensures { IsHistory the_goes 0 nothing thrown_front thrown_back }
{}

/// A slot isn't quiet whose front was never told that its incarnation ended.
pub fn untold_end_is_not_quiet()
    ensures { IsNeverQuiet untold_front untold_back }
{}

/// No turn that exceeded has ended an incarnation of which no halt was taken.
pub fn end_without_halt_is_refuted()
    ensures { IsNoHistory broken_front broken_back }
{}

/// Nor one whose script made none, though a halt was taken.
pub fn halt_without_turn_is_refuted()
    ensures { IsHistory the_two 0 nothing halted_front halted_back → ⊥ }
{}

/// Nothing is delivered behind an end that no mounting followed: what was durable is never read as missing.
pub fn forgotten_write_is_refuted()
    ensures { IsNoHistory gone_front gone_back }
{}

/// No incarnation ends that was never mounted.
pub fn end_behind_an_end_is_refuted()
    ensures { IsNoHistory twice_front twice_back }
{}
