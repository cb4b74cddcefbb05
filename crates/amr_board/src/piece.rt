//! What moves through the slots of a board.
ghost use Rattle.std.specs.Prelude.{ℕ, List};
ghost use Rattle.amr_phase.specs.declared.plan.Post.{Post};

/// The piece of a task. Its meaning is a function of the piece as handed in. It has the number of its task, the puts
/// and adds that it makes, and which pieces may be given back in its place. That is a relation, so that pieces of
/// several forms may stand for the same values.
pub trait Piece: Drop {
    ghost task: { Self → ℕ };

    ghost puts: { Self → List Post };

    ghost adds: { Self → List Post };

    // Of the piece as handed in, and of one that may be given back.
    ghost becomes: { Self → Self → Type 0 };
}
