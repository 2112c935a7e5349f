//! A law of what lines say.
ghost use Rattle.std.specs.Prelude.{◌≡◌, ℕ, List, None, Ok};
ghost use Rattle.values.specs.Tables.{Schema};
ghost use Rattle.steps.specs.declared.step.Step.{Step};
ghost use Rattle.steps.specs.Misfit.{misfit};
ghost use Rattle.statement.specs.declared.line.Line.TheVariants.{Step as Asks};
ghost use Rattle.statement.specs.Line.{line_says};

/// States that a step which a line of a script asks for fits the tables by which the line is read.
pub fn asked_steps_fit()
    ensures { (schema : Schema) (reading : ℕ) (line : List ℕ) (step : Step)
        → line_says schema reading line ≡ Ok (Asks step) → misfit schema step ≡ None }
{}
