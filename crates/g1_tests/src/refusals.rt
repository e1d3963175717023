//! How a program reports a refusal and great numbers, which words it takes, and devices that fail.
use crate::expecting::{expect_equal, expect_list};
use g1_command::{Refusal, deliver, read_all, refuse, whole, words};
use g1_tables::choice_lines;
use g1_testing::{Stream, Trouble, is_refusal};
use g1_words::{Device, Fault};
use std::alloc::{AllocError, Global};
use std::env::FillError;
use std::io::ErrorKind;
use std::process::Abort;
use std::rt::Env;
use std::test::Fail;

// The refusal is reported as this line, in one write, and has this status.
fn expect_refusal<T: Abort>(rt: &T, alloc: Global, refusal: &Refusal, line: &str, wanted: u8) {
    let mut errors = Stream::of(Vec::new(alloc), usize::MAX);
    let ended = refuse("the_name", refusal, &mut errors).status;
    let found = (ended, errors.bytes.as_slice());
    expect_equal(rt, found, (wanted, line.as_bytes()));
    expect_equal(rt, errors.longest, line.len());
}

const GREATEST: u64 = u64::MAX;

// The others are in rows of `g1_rows`.
#[test]
fn faults_with_great_numbers_have_a_line_and_a_status(rt: HostRuntime) {
    let (need, free) = (GREATEST, GREATEST);
    for (fault, line, wanted) in [
        (
            Fault::Room { need, free },
            "the_name: fault 11: room need 18446744073709551615 free 18446744073709551615\n",
            5,
        ),
        (Fault::Memory, "the_name: fault 13: memory\n", 6),
        (Fault::Line(65_536), "the_name: fault 15: line 65536\n", 2),
        (
            Fault::Line(GREATEST),
            "the_name: fault 15: line 18446744073709551615\n",
            2,
        ),
    ] {
        expect_refusal(&rt, rt.alloc(), &Refusal::Fault(fault), line, wanted);
    }
}

#[test]
fn a_total_has_more_than_64_bits(rt: HostRuntime) -> Result<(), Fail> {
    let text = choice_lines(rt.alloc(), &[], 0, 1 << 64)?;
    expect_list(&rt, &text, b"total 18446744073709551616\n");
    Ok(())
}

#[test]
fn a_usage_fault_is_one_write(rt: HostRuntime) -> Result<(), Fail> {
    let text = "error: what is wrong\n\nUsage: how it is used\n";
    let usage = Refusal::usage(String::from_str(rt.alloc(), text)?);
    expect_refusal(&rt, rt.alloc(), &usage, text, 2);
    Ok(())
}

// Each second call is interrupted, and after this many others all fail.
fn failing(
    alloc: Global,
    text: &[u8],
    left: usize,
    trouble: Trouble,
) -> Result<Stream, AllocError> {
    let stream = Stream::new(text.to_vec(alloc)?, left, trouble);
    Ok(stream.with_errors(1, ErrorKind::Interrupted))
}

// What comes of this text and a device that fails after this many calls. The last one finds the end, or flushes.
fn outcome(text: &[u8], left: usize, device: Device) -> Result<(), Fault> {
    if left > text.len() {
        Ok(())
    } else {
        Err(Fault::Device(device))
    }
}

fn expect_devices<T: Abort>(
    rt: &T,
    alloc: Global,
    text: &[u8],
    left: usize,
    trouble: Trouble,
) -> Result<(), AllocError> {
    let expected = outcome(text, left, Device::Input);
    match read_all(alloc, &mut failing(alloc, text, left, trouble)?) {
        Ok(bytes) => expect_equal(rt, (bytes.as_slice(), Ok(())), (text, expected)),
        Err(fault) => expect_equal(rt, Err(fault), expected),
    }
    let mut writer = failing(alloc, b"", left, trouble)?;
    let delivered = deliver(text, &mut writer);
    expect_equal(rt, delivered, outcome(text, left, Device::Output));
    expect_list(rt, &writer.bytes, &text[..left.min(text.len())]);
    Ok(())
}

// A reader that is out of memory is an input that failed, and so is any other failure.
#[test]
fn devices_fail_at_each_call(rt: HostRuntime) -> Result<(), AllocError> {
    let text = b"seven\nbytes".as_slice();
    for left in 0..=text.len() + 1 {
        expect_devices(&rt, rt.alloc(), text, left, Trouble::Broken)?;
        expect_devices(&rt, rt.alloc(), text, left, Trouble::OutOfMemory)?;
    }
    Ok(())
}

// Others are in rows of `g1_rows`, whose words have no spaces.
#[test]
fn a_number_has_no_space(rt: HostRuntime) {
    let found = (whole(" 1"), whole("1 "), whole("1"));
    expect_equal(&rt, found, (None, None, Some(1)));
}

// A program that was called by these words, of which the first is its name.
#[derive(Drop)]
struct Called {
    words: &'static [&'static [u8]],
}

impl Env for Called {
    fn arg(&self, i: usize, buf: &mut [u8]) -> Result<usize, FillError> {
        let word = self.words.get(i).ok_or(FillError::NotPresent)?;
        if word.len() > buf.len() {
            return Err(FillError::TooLong);
        }
        buf[..word.len()].copy_from_slice(word);
        Ok(word.len())
    }

    fn var(&self, _name: &str, _buf: &mut [u8]) -> Result<usize, FillError> {
        Err(FillError::NotPresent)
    }

    fn var_at(&self, _i: usize, _buf: &mut [u8]) -> Result<usize, FillError> {
        Err(FillError::NotPresent)
    }
}

// Words with one that is not text are refused by these lines.
fn expect_shown<T: Abort>(rt: &T, alloc: Global, called: &'static [&'static [u8]], line: &str) {
    match words(&Called { words: called }, alloc) {
        Ok(_) => expect_equal(rt, "no refusal", line),
        Err(refusal) => expect_refusal(rt, alloc, &refusal, line, 2),
    }
}

#[test]
fn a_word_that_is_not_text_is_shown(rt: HostRuntime) {
    let alloc = rt.alloc();
    let line = "error: word 2 is not text: 'sho\\xff'\n";
    expect_shown(&rt, alloc, &[b"name", b"sho\xff"], line);
    let line = "error: word 3 is not text: '\u{e9}\\xc3'\n";
    let called: &[&[u8]] = &[b"name", b"show", b"\xc3\xa9\xc3", b"\xfe"];
    expect_shown(&rt, alloc, called, line);
    let line = "error: word 2 is not text: '\\xf0\\x9f\\x92x'\n";
    expect_shown(&rt, alloc, &[b"name", b"\xf0\x9f\x92x"], line);
}

#[test]
fn words_may_be_long_or_empty(rt: HostRuntime) -> Result<(), Refusal> {
    let called = Called {
        words: &[
            b"\xff",
            b"show",
            b"\xc3\xa9",
            b"",
            &[b'x'; 300],
            &[b'x'; 70_000],
        ],
    };
    let words = words(&called, rt.alloc())?;
    assert!(rt; words.len() == 5);
    expect_equal(&rt, words[1].as_str(), "\u{e9}");
    expect_equal(&rt, words[2].as_str(), "");
    expect_equal(&rt, words[3].len(), 300);
    expect_equal(&rt, words[4].len(), 70_000);
    Ok(())
}

// What a call that was refused memory may leave, of an image and an answer.
static LEFT: [(&str, &[u8], bool); 13] = [
    ("order", b"fault 13: memory\n", true),
    ("order", b"7\nfault 13: memory\n", true),
    ("order", b"8\nfault 13: memory\n", false),
    ("order", b"fault 11: room need 1 free 0\n", false),
    ("order", b"fault 13: memory\nG1IMAGE2 ..", false),
    ("order", b"-\n", false),
    ("order", b"", false),
    ("evacuate", b"fault 13: memory\nG1IMAGE2 ..", true),
    ("evacuate", b"fault 13: memory\nG1IMAGE2 .-", false),
    ("evacuate", b"fault 13: memory\n", false),
    ("verify", b"fault 13: memory\n7\n8\n", false),
    ("step", b"7\nfault 13: memory\n8\n", true),
    ("step", b"fault 13: memory\n8\n", false),
];

#[test]
fn a_refusal_leaves_memory_alone(rt: HostRuntime) {
    for (call, found, is_so) in &LEFT {
        let is_refused = is_refusal(call, found, b"7\n8\n", b"G1IMAGE2 ..");
        expect_equal(&rt, (*call, *found, is_refused), (*call, *found, *is_so));
    }
}
