//! What holds of jobs that run in waves: each law is the contract of a function that does nothing.
ghost use Rattle.std.specs.Prelude.{◌≡◌, ◌≢◌, ℕ, false, List, [], length};
ghost use Rattle.hub_cert.specs.Set.{AreApart, HasValidProfiles, Members};
ghost use Rattle.hub_cert.specs.declared.fault.CheckFault.{CheckFault};
ghost use Rattle.hub_rounds.specs.Lines.{DecideEachGoal};
ghost use Rattle.hub_state.specs.State.{State};
ghost use Rattle.hub_job.specs.declared.outcome.Outcome.{Outcome};
ghost use Rattle.hub_serial.specs.Clash.{JobsClash};
ghost use Rattle.hub_starter.specs.InOrder.{IsSerial};
ghost use Rattle.hub_starter.specs.Waved.{AllWaves, FirstWave, OfWaves, OneMoreWave, WaveIsSerial};
ghost use Rattle.hub_starter.specs.Waves.{NoneBreaks, NoOwnLines, may_clash};

use hub_cert::laws::certificates_make_a_set_safe;
use hub_serial::laws::{
    ends_may_come_in_any_order, equivalent_schedules_leave_the_same, histories_in_order_are_serial,
    jobs_work_in_turn,
};
use hub_tree::laws::a_set_keeps_trees;

/// If no line of a set is about two profiles, they don't clash. If none is about a profile alone, none breaks a rule.
pub fn jobs_without_a_line_do_not_clash()
    ensures clash { (S : Members) (es : List CheckFault) (i j : ℕ) → HasValidProfiles S → AreApart S
        → DecideEachGoal S es → i ≢ j → may_clash es i j ≡ false → ¬ (JobsClash S.profiles i j) }
    ensures breach { (S : Members) (es : List CheckFault) → HasValidProfiles S → AreApart S
        → DecideEachGoal S es → NoOwnLines es → NoneBreaks S }
{
    certificates_make_a_set_safe();
}

/// What the jobs of a wave leave is what they leave one after another, however their turns interleave, if in each root's history
/// those that clash stand in order.
pub fn a_wave_is_serial()
    ensures { OfWaves WaveIsSerial }
{
    ends_may_come_in_any_order();
    histories_in_order_are_serial();
}

/// What waves leave, one after another, is what their jobs leave one after another; and in the end what all jobs leave in the
/// order of their profiles.
pub fn waves_are_serial()
    ensures first { OfWaves FirstWave }
    ensures more { OfWaves OneMoreWave }
    ensures all { OfWaves AllWaves }
    ensures none { (S : State) → IsSerial S [] (record { state = S; jobs = [] }) }
{
    a_set_keeps_trees();
    equivalent_schedules_leave_the_same();
    jobs_work_in_turn();
}
