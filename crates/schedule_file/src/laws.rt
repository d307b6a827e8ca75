//! Laws of the texts of schedules. Each function states a law, and its body does nothing.
ghost use Rattle.std.specs.Prelude.{◌≡◌, ℕ, List};
ghost use Rattle.memory_models.specs.declared.model.Model.{Model as OneModel};
ghost use Rattle.tc_base.specs.declared.moves.Move.{Move as OneMove};
ghost use Rattle.schedule_file.specs.Schedules.{HaveText, schedule_text};
ghost use Rattle.schedule_file.specs.Faults.{BreaksAt};

/// A text is that of at most one schedule.
pub fn schedules_are_one()
    ensures { (model other : OneModel) (moves others : List OneMove) → HaveText model moves → HaveText other others
        → schedule_text model moves ≡ schedule_text other others → (model ≡ other) × (moves ≡ others) }
{}

/// A text that isn't a schedule breaks the format at exactly one line, a schedule's text at none.
pub fn faults_are_one()
    ensures some { (text : List ℕ)
        → ((model : OneModel) (moves : List OneMove) → HaveText model moves → text ≡ schedule_text model moves → ⊥)
        → (number : ℕ) × BreaksAt text number }
    ensures one { (text : List ℕ) (this that : ℕ) → BreaksAt text this → BreaksAt text that → this ≡ that }
    ensures none { (text : List ℕ) (model : OneModel) (moves : List OneMove) (number : ℕ) → HaveText model moves
        → text ≡ schedule_text model moves → BreaksAt text number → ⊥ }
{}
