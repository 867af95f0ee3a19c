//! Laws over the definitions of a run, as functions that do nothing and whose clauses are the laws.
ghost use Rattle.std.specs.Prelude.{ℕ};
ghost use Rattle.wait_lists.specs.EventCore.declared.event.Ev.{Ev};
ghost use Rattle.sim_model.specs.Configuration.{Config};
ghost use Rattle.sim_model.specs.Waits.{wake, fire};
ghost use Rattle.kernel_processes.specs.Woken.{Rouses, at_only, joins_only, after_wake, joins, after_event, joins_by};

/// A wake reaches the one instance that it names, and nothing else (IEEE 1666-2011, 4.2.1).
pub fn a_wake_reaches_one_instance()
    ensures one { (c : Config) (p : ℕ) → Rouses (at_only p after_wake) (joins_only p joins) c (wake c p) }
{}

/// An event reaches each instance by itself: whatever happens to one, the others are as if it were alone
/// (IEEE 1666-2011, 5.10).
pub fn an_event_reaches_each_instance()
    ensures each { (c : Config) (e : Ev) → Rouses (λ q. after_event e) (λ q. joins_by e) c (fire c e) }
{}
