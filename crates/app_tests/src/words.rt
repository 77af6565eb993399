//! Words as a user writes them. What they ask for was worked out by hand.

use command_line::{Request, WordsFault, read};
use std::alloc::Global;
use std::test::Fail;

// These words, separated by blanks.
fn split(alloc: Global, line: &str) -> Result<Vec<String>, Fail> {
    let mut words = Vec::new(alloc);
    for word in line.split_whitespace() {
        words.push(String::from_str(alloc, word)?)?;
    }
    Ok(words)
}

// Whether these words are those of no call.
fn is_usage(alloc: Global, line: &str) -> Result<bool, Fail> {
    let words = split(alloc, line)?;
    Ok(matches!(read(alloc, &words), Err(WordsFault::Usage)))
}

// The number of threads that these words ask for.
fn threads(alloc: Global, line: &str) -> Result<Option<u64>, Fail> {
    let words = split(alloc, line)?;
    match read(alloc, &words) {
        Ok(Request::Job(job)) => Ok(job.parallel),
        _ => Ok(None),
    }
}

#[test]
fn forms_of_an_option(rt: HostRuntime) -> Result<(), Fail> {
    let alloc = rt.alloc();
    assert!(rt; threads(alloc, "-p8 jobs.yaml")? == Some(8));
    assert!(rt; threads(alloc, "jobs.yaml -p 8")? == Some(8));
    assert!(rt; threads(alloc, "--parallel=64 jobs.yaml")? == Some(64));
    assert!(rt; threads(alloc, "--parallel 1 jobs.yaml")? == Some(1));
    assert!(rt; threads(alloc, "jobs.yaml d=2")? == None);
    Ok(())
}

#[test]
fn words_of_no_call(rt: HostRuntime) -> Result<(), Fail> {
    let alloc = rt.alloc();
    let lines = [
        "",
        "--",
        "-p 0 jobs.yaml",
        "-p 65 jobs.yaml",
        "-p 2 -p 2 jobs.yaml",
        "jobs.yaml -p",
        "--version",
        "--help jobs.yaml",
        "-x jobs.yaml",
        "--save= jobs.yaml",
        "--units=1 jobs.yaml",
        "--save-limit=64 jobs.yaml",
        "--save=s --save-limit=63 jobs.yaml",
        "--save=s --units=0 jobs.yaml",
        "--save=s",
        "--sample=1",
        "--sample=2 jobs.yaml",
        "--sample=2 --save=s",
    ];
    for line in lines {
        assert!(rt; is_usage(alloc, line)?, "{line}");
    }
    Ok(())
}

#[test]
fn overrides_with_their_places(rt: HostRuntime) -> Result<(), Fail> {
    let alloc = rt.alloc();
    let words = split(alloc, "--save d=3 jobs.yaml -p8 d=2 -- -x")?;
    let Ok(Request::Job(job)) = read(alloc, &words) else {
        return Err(Fail::new("no job"));
    };
    assert!(rt; job.job_file == "jobs.yaml" && job.overrides.len() == 2);
    assert!(rt; job.overrides[0].place == 5 && job.overrides[0].text == "d=2");
    assert!(rt; job.overrides[1].place == 7 && job.overrides[1].text == "-x");
    assert!(rt;
        matches!(job.save, Some(save) if save.file == "d=3" && save.limit == 4294967296 && save.units.is_none())
    );
    Ok(())
}

#[test]
fn words_of_other_calls(rt: HostRuntime) -> Result<(), Fail> {
    let alloc = rt.alloc();
    let words = split(alloc, "--help")?;
    assert!(rt; matches!(read(alloc, &words), Ok(Request::Help)));
    let words = split(alloc, "-p 3 --sample 7")?;
    assert!(rt;
        matches!(
            read(alloc, &words),
            Ok(Request::Sample {
                number: 7,
                parallel: Some(3)
            })
        )
    );
    Ok(())
}
