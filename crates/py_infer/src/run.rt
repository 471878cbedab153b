//! The top call: from the words to the sinks.
ghost use Rattle.std.specs.Prelude.{◌≡◌, ◌≢◌, ◌⊎◌, ℕ, List, IfOk, IfSome, IsSomeAnd};
ghost use Rattle.outside_io.specs.Outside.{Rose, Takes};
ghost use Rattle.pyi_write.specs.Layout.{stub_text};
ghost use Rattle.py_infer.specs.declared.answer.Answer.{Answer as Answer'};
ghost use Rattle.py_infer.specs.Answers.{refused, unread, usage};
ghost use Rattle.py_infer.specs.Lines.{Line};
ghost use Rattle.py_infer.specs.Outputs.{AreCovered, AreCut, HoldsModule, HoldsRefused, IsAsked, IsCut, IsDelivered, IsUnread, seen};
ghost use Rattle.py_infer.specs.Stubs.{AreRowsOf, Rows, stub_of};
ghost use Rattle.py_infer.specs.Words.{Accepts, IsUnaccepted, texts_of};

use crate::answer::Answer;
use crate::judge::judged;
use crate::report::whole_report;
use crate::status::Status;
use crate::words::accepted_file;
use outside_io::{Fetched, Shelf, ShelfFault, Sink, put_all};
use py_descent::laws::descent_is_complete;
use py_tokens::laws::one_answer;
use std::alloc::{AllocError, Global};

/// The most bytes that a file may have.
const MOST_BYTES: usize = 262144;

// What the words ask for.
fn asked<S: Shelf>(alloc: Global, words: &[String], shelf: &mut S) -> Result<Answer, AllocError>
    ensures asked { IfOk result (IsAsked (texts_of words.now) (S.held shelf.old) (S.faults shelf.old) (S.faults shelf.new) (S.last shelf.new)) }
    ensures held { S.held shelf.new ≡ S.held shelf.old }
    ensures quiet { IfOk result (λ answer. answer.status ≢ Status.ReadFault → (S.faults shelf.new ≡ S.faults shelf.old) × (S.last shelf.new ≡ S.last shelf.old)) }
{
    let Some(file) = accepted_file(words) else {
        return Answer::usage(alloc);
    };
    match shelf.fetch(alloc, file, MOST_BYTES) {
        Ok(Fetched::Whole(bytes)) => match judged(alloc, bytes.as_slice())? {
            Ok(stub) => Ok(Answer::clean(alloc, stub)),
            Err(report) => Answer::refused(alloc, file, &report),
        },
        Ok(Fetched::TooLong) => {
            let report = whole_report(alloc, "too-long")?;
            Answer::refused(alloc, file, &report)
        }
        Err(ShelfFault::Failed) => Answer::unread(alloc, file),
        Err(ShelfFault::Memory) => Err(AllocError),
    }
}

// Puts both texts. Where the first can't be put whole, the second isn't begun.
fn deliver<O: Sink, E: Sink>(answer: &Answer, out: &mut O, note: &mut E) -> Status
    ensures { IsDelivered answer.now
        (seen (O.taken out.old) (O.taken out.new) (O.faults out.old) (O.faults out.new))
        (seen (E.taken note.old) (E.taken note.new) (E.faults note.old) (E.faults note.new)) result }
{
    if put_all(out, answer.out.bytes()).is_err() {
        return Status::WriteFault;
    }
    if put_all(note, answer.note.bytes()).is_err() {
        return Status::WriteFault;
    }
    answer.status
}

/// Does what the words ask for: infers the types of a module, puts its stub to `out` and what there is to report to `note`.
/// It makes all its texts before its first put, and doesn't begin the second where the first can't be put whole.
pub fn run<S: Shelf, O: Sink, E: Sink>(
    alloc: Global,
    words: &[String],
    shelf: &mut S,
    out: &mut O,
    note: &mut E,
) -> Status
    // Usage comes exactly where the words aren't accepted.
    ensures usage { result ≡ Status.Usage → IsUnaccepted (texts_of words.now)
        × (O.taken out.new ≡ O.taken out.old) × Takes (E.taken note.old) (E.taken note.new) usage.note }
    ensures usage_always { IsUnaccepted (texts_of words.now) → (result ≡ Status.Usage) ⊎ IsCut result }

    // Refused comes exactly where the file is refused, with exactly its report.
    ensures refused { result ≡ Status.Refused → (file report : List ℕ) × Accepts (texts_of words.now) file
        × IfSome (S.held shelf.old) (λ files. HoldsRefused files file report)
        × (O.taken out.new ≡ O.taken out.old) × Takes (E.taken note.old) (E.taken note.new) (refused file report).note }
    ensures refused_always { (file report : List ℕ) → Accepts (texts_of words.now) file → IsSomeAnd (S.held shelf.old) (λ files. HoldsRefused files file report)
        → (result ≡ Status.Refused) ⊎ (result ≡ Status.ReadFault) ⊎ IsCut result }

    // ReadFault comes only where the shelf failed in this call, and the file is the last that it failed to fetch.
    ensures read_fault { result ≡ Status.ReadFault → (file : List ℕ) × Accepts (texts_of words.now) file
        × IsUnread (S.faults shelf.old) (S.faults shelf.new) (S.last shelf.new) file
        × (O.taken out.new ≡ O.taken out.old) × Takes (E.taken note.old) (E.taken note.new) (unread file).note }

    // WriteFault comes only where a sink failed that took less than its text. Both took prefixes of what was asked for.
    ensures write_fault { result ≡ Status.WriteFault → (answer : Answer')
        × IsAsked (texts_of words.now) (S.held shelf.old) (S.faults shelf.old) (S.faults shelf.new) (S.last shelf.new) answer
        × AreCut answer
        (seen (O.taken out.old) (O.taken out.new) (O.faults out.old) (O.faults out.new))
        (seen (E.taken note.old) (E.taken note.new) (E.faults note.old) (E.faults note.new)) }

    // Clean comes where the file is a plain module, with exactly its stub.
    ensures clean { result ≡ Status.Clean → (file : List ℕ) × (lines : List Line) × (rows : Rows) × Accepts (texts_of words.now) file
        × IfSome (S.held shelf.old) (λ files. HoldsModule files file lines) × AreRowsOf lines rows
        × Takes (O.taken out.old) (O.taken out.new) (stub_text (stub_of rows)) × (E.taken note.new ≡ E.taken note.old) }
    ensures clean_always { (file : List ℕ) (lines : List Line) → Accepts (texts_of words.now) file → IsSomeAnd (S.held shelf.old) (λ files. HoldsModule files file lines)
        → (result ≡ Status.Clean) ⊎ (result ≡ Status.ReadFault) ⊎ IsCut result }

    // In the run of the module, each name's value after the last line belongs to the type that the stub prints for it.
    ensures covered { result ≡ Status.Clean → IfSome (S.held shelf.old) (λ files. (file : List ℕ) × (lines : List Line) × (rows : Rows)
        × Accepts (texts_of words.now) file × HoldsModule files file lines
        × Takes (O.taken out.old) (O.taken out.new) (stub_text (stub_of rows)) × AreCovered lines rows) }

    // Where nothing fails, a plain module is answered.
    ensures complete { (file : List ℕ) (lines : List Line) → Accepts (texts_of words.now) file → IsSomeAnd (S.held shelf.old) (λ files. HoldsModule files file lines)
        → ¬ (IsUnread (S.faults shelf.old) (S.faults shelf.new) (S.last shelf.new) file)
        → ¬ (Rose (O.faults out.old) (O.faults out.new)) → ¬ (Rose (E.faults note.old) (E.faults note.new))
        → (result ≡ Status.Clean) ⊎ (result ≡ Status.Memory) }

    ensures never { (result ≢ Status.Findings) × (result ≢ Status.TooLarge) }

    // No other fetch failed where the answer is the file's, or the words'.
    ensures quiet { (result ≡ Status.Clean) ⊎ (result ≡ Status.Refused) ⊎ (result ≡ Status.Usage)
        → (S.faults shelf.new ≡ S.faults shelf.old) × (S.last shelf.new ≡ S.last shelf.old) }

    // After want of memory both sinks are as before.
    ensures memory { result ≡ Status.Memory → (O.taken out.new ≡ O.taken out.old) × (E.taken note.new ≡ E.taken note.old) }
    ensures held { S.held shelf.new ≡ S.held shelf.old }
{
    one_answer();
    descent_is_complete();
    match asked(alloc, words, shelf) {
        Ok(answer) => deliver(&answer, out, note),
        Err(AllocError) => Status::Memory,
    }
}
