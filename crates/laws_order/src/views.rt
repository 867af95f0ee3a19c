//! What shows of two configurations that are the same.
ghost use Rattle.std.specs.Prelude.{◌≡◌};
ghost use Rattle.sim_model.specs.FlatDesign.declared.design.VisibleId.{VisibleId};
ghost use Rattle.sim_model.specs.Configuration.{Config};
ghost use Rattle.sim_model.specs.Phases.{visible_value, visible_values};
ghost use Rattle.sim_model.specs.Trace.{trace_text};
ghost use Rattle.sim_model.specs.Texts.{final_lines, closing};
ghost use Rattle.sim_model.specs.declared.plain.Stop.{Stop};
ghost use Rattle.laws_order.specs.Same.{Same};

/// Two configurations that are the same are in the same phase, at the same time, with the same end; all objects that have values to be
/// seen have the same; and the trace, the final lines and the end line are the same.
pub fn what_is_the_same_shows_the_same()
    ensures cycle { (c x : Config) → Same c x → x.cycle ≡ c.cycle }
    ensures value { (c x : Config) → Same c x → (v : VisibleId) → visible_value x v ≡ visible_value c v }
    ensures values { (c x : Config) → Same c x → visible_values x ≡ visible_values c }
    ensures trace { (c x : Config) → Same c x → trace_text x ≡ trace_text c }
    ensures finals { (c x : Config) → Same c x → final_lines x ≡ final_lines c }
    ensures closing { (c x : Config) → Same c x → (s : Stop) → closing x s ≡ closing c s }
{}
