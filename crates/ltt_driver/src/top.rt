ghost use Rattle.std.specs.Prelude.{◌≡◌, ℕ, List, map, string_bytes};
ghost use Rattle.ltt_base.specs.Status.{StatusMeans};
ghost use Rattle.ltt_driver.specs.Asked.{NoForm, TooManyFiles, asked, AsksFor, HasForm};
ghost use Rattle.ltt_driver.specs.Outcome.{IsDue};

use crate::command::{Command, Kind, on_files, on_one, on_run};
use crate::lines::usage_line;
use crate::telling::say;
use ltt_base::{Files, Sink};
use std::alloc::Global;

/// A call of `ltt`: does what the words ask, and answers the status of the process.
pub fn ltt<F: Files, O: Sink, E: Sink>(
    alloc: Global,
    words: &[String],
    files: &mut F,
    out: &mut O,
    err: &mut E,
) -> u8
    ensures means { StatusMeans
        (IsDue (asked (map string_bytes words.now)) (F.held files.old))
        (AsksFor (asked (map string_bytes words.now)))
        (HasForm (asked (map string_bytes words.now)))
        (record { out = O.taken out.old; out_faults = O.faults out.old; err = E.taken err.old; err_faults = E.faults err.old; read_faults = F.faults files.old })
        (record { out = O.taken out.new; out_faults = O.faults out.new; err = E.taken err.new; err_faults = E.faults err.new; read_faults = F.faults files.new })
        result }

    // such words select no file, and nothing is written
    ensures no_form { asked (map string_bytes words.now) ≡ NoForm → (files.new ≡ files.old) × (out.new ≡ out.old) }
    ensures many_files { asked (map string_bytes words.now) ≡ TooManyFiles → (files.new ≡ files.old) × (out.new ≡ out.old) }
{
    let [word, words @ ..] = words else {
        return say(2, usage_line(), err);
    };
    let word = word.as_bytes();
    if word == b"lower".as_slice() {
        return on_files(alloc, Command { kind: Kind::Lower }, words, files, out, err);
    }
    if word == b"check".as_slice() {
        return on_files(alloc, Command { kind: Kind::Check }, words, files, out, err);
    }
    if word == b"reprint".as_slice() {
        return on_one(
            alloc,
            Command {
                kind: Kind::Reprint,
            },
            words,
            files,
            out,
            err,
        );
    }
    if word == b"run".as_slice() {
        return on_run(alloc, words, files, out, err);
    }
    say(2, usage_line(), err)
}
