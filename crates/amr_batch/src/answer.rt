//! What a batch is answered: the reply of each job, in order, and the end.

ghost use Rattle.std.specs.Prelude.{◌≡◌, map, OnOk, OnErr};
ghost use Rattle.amr_causes.specs.Bytes.{Grows};
ghost use Rattle.amr_causes.specs.Causes.{HasCause};
ghost use Rattle.amr_io.specs.Short.{FallsShort};
ghost use Rattle.amr_batch.specs.Answer.{answer_text, job_reply, reply_text};

use amr_io::{Fragment, Sink, WriteFault, write_fragments, write_whole};

/// The reply of a job: the exit status that it ends with, and the bytes of its answer.
#[derive(Drop)]
pub struct Reply {
    pub code: u8,
    pub text: Vec<u8>,
}

/// The reply of the job with this number: its line, and its bytes.
fn put_reply<O: Sink>(number: usize, reply: &Reply, out: &mut O) -> Result<(), WriteFault>
    ensures whole { OnOk result (Grows O.holds out.old out.new (reply_text number (job_reply reply.now))) }
    ensures short { OnErr result (FallsShort O.holds out.old out.new (reply_text number (job_reply reply.now))) }
    ensures cause { HasCause (O.faults out.old) (O.faults out.new) result }
    ensures no_fault { OnOk result (O.faults out.new ≡ O.faults out.old) }
{
    write_fragments(
        out,
        &[
            Fragment::Str("reply "),
            Fragment::Number(number as u64),
            Fragment::Str(" "),
            Fragment::Number(u64::from(reply.code)),
            Fragment::Str(" "),
            Fragment::Number(reply.text.len() as u64),
            Fragment::Str("\n"),
        ],
    )?;
    write_whole(out, &reply.text)
}

/// Writes the answer to a batch whose jobs have these replies: a line `reply I CODE LEN` and then LEN bytes for each, I from 0, and
/// then the line `end`. On `Err` less than that went out.
pub fn put_answer<O: Sink>(replies: &[Reply], out: &mut O) -> Result<(), WriteFault>
    ensures whole { OnOk result (Grows O.holds out.old out.new (answer_text (map job_reply replies.now))) }
    ensures short { OnErr result (FallsShort O.holds out.old out.new (answer_text (map job_reply replies.now))) }
    ensures cause { HasCause (O.faults out.old) (O.faults out.new) result }
    ensures no_fault { OnOk result (O.faults out.new ≡ O.faults out.old) }
{
    for (number, reply) in replies.iter().enumerate() {
        put_reply(number, reply, out)?;
    }
    write_whole(out, b"end\n")
}
