//! `lfs_check`: an image is read, from standard input or from a file, and checked; or the blocks of a volume, in which
//! it is found.

ghost use Rattle.std.specs.Prelude.{◌≡◌, IfErr, IfOk};
ghost use Rattle.clap.specs.Values.{kind_of};
ghost use Rattle.lfs_command.specs.Ends.{EndsUnasked};
ghost use Rattle.lfs_rescue.specs.Ends.{EndsCheck, EndsReading, IsCheckEnd};

use crate::options::{Options, options_of};
use crate::telling::answer;
use clap::Error;
use lfs_checking::fault::CheckFault;
use lfs_command::means::Means;
use lfs_command::refusing::refuse;
use lfs_command::streams::Streams;
use lfs_command::words::{texts, words};
use lfs_io::tell::tell;
use std::alloc::Global;
use std::env::Env;
use std::fs::File;
use std::io::{Read, Write};
use std::rt::Files;

/// The program's name.
const NAME: &str = "lfs_check";

/// Does what the arguments of an environment ask `lfs_check` for, and gives the status with which it ends: 0 for the
/// image of a volume, for the blocks of one, and for help; 1 for those of none, and for a fault, told in a line on
/// standard error; 2 for words that are refused.
pub fn lfs_check<E, F, R, W, D>(env: &E, files: &F, streams: &mut Streams<R, W, D>) -> u8
where
    E: Env + AllocGlobal,
    F: Files,
    R: Read,
    W: Write,
    D: Write,
    ensures { IsCheckEnd F.File.contents F.File.remaining (R.remaining streams.old.stdin)
        (W.contents streams.old.stdout) (W.contents streams.new.stdout)
        result streams.old.stdin streams.new.stdin streams.old.stdout streams.new.stdout
        streams.old.stderr streams.new.stderr }
{
    let alloc = env.alloc();
    let words = words(env);
    let asked = options_of(alloc, texts(&words));
    run(files, alloc, asked, streams)
}

/// Does what was asked for, or tells why that is nothing.
fn run<F, R, W, D>(
    files: &F,
    alloc: Global,
    asked: Result<Options<'_>, Error>,
    streams: &mut Streams<R, W, D>,
) -> u8
where
    F: Files,
    R: Read,
    W: Write,
    D: Write,
    ensures run { IfOk asked.entry (λ options. EndsCheck F.File.contents F.File.remaining options
        (R.remaining streams.old.stdin)
        (W.contents streams.old.stdout) (W.contents streams.new.stdout)
        result streams.old.stdin streams.new.stdin streams.old.stdout streams.new.stdout
        streams.old.stderr streams.new.stderr) }
    ensures not_run { IfErr asked.entry (λ error. (streams.new.stdin ≡ streams.old.stdin)
        × EndsUnasked (kind_of error) result streams.old.stdout streams.new.stdout
        streams.old.stderr streams.new.stderr) }
{
    match asked {
        Ok(options) => {
            let means = Means {
                files,
                alloc,
                options,
            };
            check_asked(&means, streams)
        }
        Err(error) => refuse(&mut streams.stdout, &mut streams.stderr, NAME, &error),
    }
}

/// Reads the file that is named, or standard input. Gives the status with which the program ends.
fn check_asked<F, R, W, D>(means: &Means<'_, F, Options<'_>>, streams: &mut Streams<R, W, D>) -> u8
where
    F: Files,
    R: Read,
    W: Write,
    D: Write,
    ensures { EndsCheck F.File.contents F.File.remaining means.now.options
        (R.remaining streams.old.stdin)
        (W.contents streams.old.stdout) (W.contents streams.new.stdout)
        result streams.old.stdin streams.new.stdin streams.old.stdout streams.new.stdout
        streams.old.stderr streams.new.stderr }
{
    let Streams {
        stdin,
        stdout,
        stderr,
    } = streams;
    match means.options.image {
        Some(path) => match File::open(means.files, path) {
            Ok(mut file) => end(means, &mut file, stdout, stderr),
            Err(_) => {
                let _ = tell(stderr, NAME, &CheckFault::Open);
                1
            }
        },
        None => end(means, stdin, stdout, stderr),
    }
}

/// Tells of what a reader has, as was asked, or the fault that keeps it from that. Gives the status with which the
/// program ends.
fn end<F, R, W, D>(
    means: &Means<'_, F, Options<'_>>,
    reader: &mut R,
    stdout: &mut W,
    stderr: &mut D,
) -> u8
where
    F: Files,
    R: Read,
    W: Write,
    D: Write,
    ensures { EndsReading F.File.contents F.File.remaining means.now.options
        (R.remaining reader.old) (W.contents stdout.old) (W.contents stdout.new)
        result stdout.old stdout.new stderr.old stderr.new }
{
    match answer(means.files, means.alloc, &means.options, reader, stdout) {
        Ok(status) => status,
        Err(fault) => {
            let _ = tell(stderr, NAME, &fault);
            1
        }
    }
}
