// Which words are a job.
use cli_words::{EXAMPLE, Job, MANUAL, USAGE, WordsError, words};
use std::alloc::{AllocError, Global};
use std::test::Fail;

/// The job of a line, whose words have one space between them.
fn job_of(alloc: Global, line: &str) -> Result<Result<Job, WordsError>, AllocError> {
    let mut list = Vec::new(alloc);
    for word in line.split(' ') {
        list.push(String::from_str(alloc, word)?)?;
    }
    Ok(words(&list))
}

fn trace(cache: u32, policy: u32) -> Job {
    Job::Trace { cache, policy }
}

fn format(blocks: u32, pages: u32) -> Job {
    Job::Format { blocks, pages }
}

fn load(seed: u32, count: u64, cache: u32, policy: u32) -> Job {
    Job::Load {
        seed,
        count,
        cache,
        policy,
    }
}

#[test]
fn takes_what_is_in_the_grammar(rt: HostRuntime) -> Result<(), Fail> {
    for (line, job) in [
        ("trace", trace(512, 0)),
        ("trace --cache 64", trace(64, 0)),
        ("trace --policy 9", trace(512, 9)),
        (
            "--cache 4096 trace --policy=4294967295",
            trace(4096, u32::MAX),
        ),
        ("format --blocks 4 --pages 4", format(4, 4)),
        ("--pages=1 format --blocks=1", format(1, 1)),
        (
            "--blocks 4194304 --pages 1048576 format",
            format(4_194_304, 1_048_576),
        ),
        ("load --seed 1 --count 8", load(1, 8, 512, 0)),
        (
            "load --count=10000000 --policy 3 --seed=0 --cache 100",
            load(0, 10_000_000, 100, 3),
        ),
        ("check", Job::Check),
        ("upgrade", Job::Upgrade),
        ("merge", Job::Merge),
        (
            "serve --cache=65",
            Job::Serve {
                cache: 65,
                policy: 0,
            },
        ),
        (
            "vtrace --policy 1",
            Job::Vtrace {
                cache: 512,
                policy: 1,
            },
        ),
    ] {
        assert_eq!(rt; job_of(rt.alloc(), line)?, Ok(job), "at `{line}`");
    }
    Ok(())
}

#[test]
fn refuses_words_out_of_place(rt: HostRuntime) -> Result<(), Fail> {
    for line in [
        "",
        "trace ",
        " trace",
        "--help",
        "--version",
        "trace --help",
        "--",
        "trace --",
        "trace -- 64",
        "-",
        "-x",
        "trace -x 64",
        "trace ---cache 64",
        "trace --cach 64",
        "trace --caches 64",
        "trace --cache",
        "trace --cache ",
        "trace --cache=",
        "trace --cache -1",
        "trace --cache=-1",
        "trace --cache --policy 1",
        "trace --cache 64 --cache=64",
        "trace --cache 64 --cache 64",
        "trace --cache=64=64",
        "trace more",
        "trace trace",
        "trace format",
        "--cache 64",
        "list",
        "Trace",
        "traces",
    ] {
        assert_eq!(rt;
            job_of(rt.alloc(), line)?,
            Err(WordsError::Usage),
            "at `{line}`"
        );
    }
    assert_eq!(rt; words(&[]), Err(WordsError::Usage));
    Ok(())
}

#[test]
fn refuses_numbers_and_options_that_do_not_fit(rt: HostRuntime) -> Result<(), Fail> {
    for line in [
        "trace --cache 63",
        "trace --cache 4097",
        "trace --cache 064",
        "trace --cache +64",
        "trace --cache 0x40",
        "trace --cache 64x",
        "trace --policy 4294967296",
        "trace --policy 18446744073709551616",
        "trace --policy 00",
        "format --blocks 0 --pages 4",
        "format --blocks 4194305 --pages 4",
        "format --blocks 4 --pages 0",
        "format --blocks 4 --pages 1048577",
        "format --blocks 4",
        "format --pages 4",
        "format",
        "trace --blocks 4",
        "load --seed 1",
        "load --count 8",
        "load --seed 1 --count 10000001",
        "load --seed 4294967296 --count 1",
        "load --seed 1 --count 8 --pages 4",
        "format --blocks 4 --pages 4 --cache 64",
        "check --cache 64",
        "upgrade --policy 0",
        "merge --seed 1",
        "serve --count 1",
        "vtrace --blocks 4",
    ] {
        assert_eq!(rt;
            job_of(rt.alloc(), line)?,
            Err(WordsError::Usage),
            "at `{line}`"
        );
    }
    Ok(())
}

#[test]
fn shows_how_it_is_called(rt: HostRuntime) {
    assert_eq!(rt;
        USAGE,
        "usage: omd_tool IMAGE ACTION [--blocks N] [--pages N] [--cache N] [--policy N] [--seed N] [--count N]"
    );
    assert_eq!(rt;
        EXAMPLE,
        "example: ./omd disk.img format --blocks 4 --pages 4"
    );
    assert_eq!(rt; MANUAL, "manual: man -l docs/omd.1");
}
