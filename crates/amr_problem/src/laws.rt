//! Laws of the judgement. Each call has an empty body, and what it ensures is the law.

ghost use Rattle.amr_problem.specs.Laws.{BytesAreOneProblem, CleanBytesAreAProblem};

/// Bytes are one problem at most: two problems of the same bytes are equal, field by field.
pub fn bytes_are_one_problem()
    ensures { BytesAreOneProblem }
{}

/// Bytes without a fault are a problem.
pub fn clean_bytes_are_a_problem()
    ensures { CleanBytesAreAProblem }
{}
