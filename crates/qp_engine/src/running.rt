//! A run over a source and a sink.

ghost use Rattle.std.specs.Prelude.{◌≡◌, ◌≢◌, ◌<◌, ◌≤◌, ◌^◌, [], length, None, Some, IfSome, IfOk, OnOk, IsErrOf, string_bytes};
ghost use Rattle.std.specs.Io.KnownBytes.{IsAtEnd, Keeps};
ghost use Rattle.branching_law.specs.Search.{most_boxes};
ghost use Rattle.qp_io.specs.Causes.{Rose};
ghost use Rattle.qp_answers.specs.Answers.{usage_due};
ghost use Rattle.qp_engine.specs.Due.{IsDue};
ghost use Rattle.qp_engine.specs.Sampling.{IsSampleDue};
ghost use Rattle.qp_engine.specs.Runs.{ordered_by, HasSettled, HasShown, IsReading, Meets, MeetsDue, Settles};
ghost use Rattle.qp_words.specs.Orders.{IsInRange};

use crate::judging::judged;
use crate::sampling::sampled;
use frac_core::Memory;
use qp_answers::{Answer, Status, refused, usage};
use qp_io::{Sink, SinkStop, Source};
use qp_streams::{ReadStop, read_all, write_all};
use qp_words::{Order, Task, order_of};
use std::alloc::Global;

/// The most bytes of an input.
const LONGEST: usize = 1073741824;

/// Why there is no answer to an input.
enum NoAnswer {
    Memory,
    ReadFault,
}

impl From<Memory> for NoAnswer {
    ghost use Rattle.qp_engine.specs.declared.running.NoAnswer.{NoAnswer};

    ghost from_gives = { λ _ e. e ≡ NoAnswer.Memory };

    fn from(_: Memory) -> NoAnswer {
        NoAnswer::Memory
    }
}

/// The answer to all that the source gives, of an order that reads it.
fn answer_to<S: Source>(alloc: Global, order: Order, source: &mut S) -> Result<Answer, NoAnswer>
    requires reading { IsReading order }
    requires boxes { order.boxes ≤ most_boxes }
    ensures due { IfOk result (λ a. IfSome (S.left source.old) (λ input. IsDue order input a)) }
    ensures settled { IfOk result (λ a. a.status ≡ Status.Done →
        IfSome (S.left source.old) (λ input. Settles order.task input a.text)) }
    ensures no_usage { IfOk result (λ a. a.status ≢ Status.Usage) }
    ensures rejected { IfOk result (λ a. a.status ≡ Status.Rejected → order.task ≡ Task.Check) }
    ensures read_to_its_end { IfOk result (λ a. a.status ≡ Status.Done → IsAtEnd (S.left source.new)) }
    ensures fault { IsErrOf result NoAnswer.ReadFault →
        Rose (S.faults source.old) (S.faults source.new) }
    ensures kept { OnOk result (S.faults source.new ≡ S.faults source.old) }
    ensures kept_memory { IsErrOf result NoAnswer.Memory →
        S.faults source.new ≡ S.faults source.old }
{
    match read_all(alloc, source, LONGEST) {
        Ok(input) => Ok(judged(alloc, order, &input)?),
        Err(ReadStop::Long) => Ok(refused(alloc, 0, "TextLong")?),
        Err(ReadStop::Fault) => Err(NoAnswer::ReadFault),
        Err(ReadStop::Memory) => Err(NoAnswer::Memory),
    }
}

/// Writes an answer, and ends with its status.
fn written<T: Sink>(sink: &mut T, answer: &Answer) -> Status
    ensures meets { Meets answer.now result (T.taken sink.old) (T.taken sink.new) }
    ensures no_read_fault { result ≢ Status.ReadFault }
    ensures write_fault { result ≡ Status.WriteFault → Rose (T.faults sink.old) (T.faults sink.new) }
    ensures kept { result ≢ Status.WriteFault → T.faults sink.new ≡ T.faults sink.old }
{
    match write_all(sink, answer.text()) {
        Ok(()) => answer.status(),
        Err(SinkStop::Memory) => Status::Memory,
        Err(SinkStop::Failed) => Status::WriteFault,
    }
}

/// The run of a sample.
fn run_sample<T: Sink>(alloc: Global, order: Order, sink: &mut T) -> Status
    requires { IsInRange order }
    ensures due { MeetsDue (IsSampleDue order) result (T.taken sink.old) (T.taken sink.new) }
    ensures settled { result ≡ Status.Done → HasShown order (T.taken sink.old) (T.taken sink.new) }
    ensures no_usage { result ≢ Status.Usage }
    ensures not_rejected { result ≢ Status.Rejected }
    ensures no_read_fault { result ≢ Status.ReadFault }
    ensures write_fault { result ≡ Status.WriteFault → Rose (T.faults sink.old) (T.faults sink.new) }
    ensures writes_count { result ≢ Status.WriteFault → T.faults sink.new ≡ T.faults sink.old }
{
    match sampled(alloc, order) {
        Ok(sample) => written(sink, &sample),
        Err(Memory) => Status::Memory,
    }
}

/// The run of words that aren't taken.
fn run_usage<T: Sink>(alloc: Global, sink: &mut T) -> Status
    ensures due { Meets usage_due result (T.taken sink.old) (T.taken sink.new) }
    ensures no_read_fault { result ≢ Status.ReadFault }
    ensures not_rejected { result ≢ Status.Rejected }
    ensures write_fault { result ≡ Status.WriteFault → Rose (T.faults sink.old) (T.faults sink.new) }
    ensures writes_count { result ≢ Status.WriteFault → T.faults sink.new ≡ T.faults sink.old }
{
    match usage(alloc) {
        Ok(usage) => written(sink, &usage),
        Err(Memory) => Status::Memory,
    }
}

/// Runs the program: reads all that the source gives, writes what is due for it, and answers how it ended.
///
/// The words are a task with its options: `check` says whether the certificate behind a program holds; `write` writes a program's
/// canonical text; `solve` decides a program, with `--bases` strict steps and `--boxes` branches at most; `sample` makes the program of
/// `--kind` and `--number` and decides it, and reads nothing. Other words are answered by the usage line, and nothing is read then. The
/// whole text is built before its first byte is written.
pub fn run<S: Source, T: Sink>(
    alloc: Global,
    words: &[String],
    source: &mut S,
    sink: &mut T,
) -> Status
    ensures words { ordered_by words.now ≡ None →
        Meets usage_due result (T.taken sink.old) (T.taken sink.new) }
    ensures usage { result ≡ Status.Usage → ordered_by words.now ≡ None }
    ensures unread { ordered_by words.now ≡ None → (source.new ≡ source.old) × (result ≢ Status.ReadFault) }
    ensures due { (order : Order) → ordered_by words.now ≡ Some order → IsReading order →
        IfSome (S.left source.old) (λ input. MeetsDue (IsDue order input) result (T.taken sink.old) (T.taken sink.new)) }
    ensures settled { (order : Order) → ordered_by words.now ≡ Some order → IsReading order → result ≡ Status.Done →
        IfSome (S.left source.old) (λ input. HasSettled order.task input (T.taken sink.old) (T.taken sink.new)) }
    ensures read_to_its_end { (order : Order) → ordered_by words.now ≡ Some order → IsReading order → result ≡ Status.Done →
        IsAtEnd (S.left source.new) }
    ensures sample { (order : Order) → ordered_by words.now ≡ Some order → order.task ≡ Task.Sample →
        (source.new ≡ source.old) × (result ≢ Status.ReadFault) × MeetsDue (IsSampleDue order) result (T.taken sink.old) (T.taken sink.new) }
    ensures sampled { (order : Order) → ordered_by words.now ≡ Some order → order.task ≡ Task.Sample → result ≡ Status.Done →
        HasShown order (T.taken sink.old) (T.taken sink.new) }
    ensures rejected { (order : Order) → ordered_by words.now ≡ Some order → result ≡ Status.Rejected → order.task ≡ Task.Check }
    ensures read_fault { result ≡ Status.ReadFault →
        Rose (S.faults source.old) (S.faults source.new) }
    ensures nothing_taken { result ≡ Status.ReadFault → Keeps (T.taken sink.old) (T.taken sink.new) }
    ensures write_fault { result ≡ Status.WriteFault → Rose (T.faults sink.old) (T.faults sink.new) }
    ensures reads_count { result ≢ Status.ReadFault → S.faults source.new ≡ S.faults source.old }
    ensures writes_count { result ≢ Status.WriteFault → T.faults sink.new ≡ T.faults sink.old }
{
    let order = match order_of(alloc, words) {
        Ok(Some(order)) => order,
        Ok(None) => return run_usage(alloc, sink),
        Err(_) => return Status::Memory,
    };
    if let Task::Sample = order.task {
        return run_sample(alloc, order, sink);
    }
    match answer_to(alloc, order, source) {
        Ok(answer) => written(sink, &answer),
        Err(NoAnswer::ReadFault) => Status::ReadFault,
        Err(NoAnswer::Memory) => Status::Memory,
    }
}
