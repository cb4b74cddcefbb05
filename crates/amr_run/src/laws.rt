//! Laws of the answers to batches. The call has an empty body, and what it ensures are the laws.
ghost use Rattle.amr_run.specs.Laws.{BatchesHaveOneAnswer, JobsHaveOneReply, RepliesStandAlone};

/// Isolation: a job has one reply, by its own bytes. Two batches that have the same job have the same reply to it, whatever jobs
/// stand beside it; and a batch has one answer, however many workers solve its jobs.
pub fn replies_stand_alone()
    ensures one_reply { JobsHaveOneReply }
    ensures alone { RepliesStandAlone }
    ensures one_answer { BatchesHaveOneAnswer }
{}
