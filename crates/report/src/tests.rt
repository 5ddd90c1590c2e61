use crate::bounds::Bounds;
use crate::ending::Ending;
use crate::figures::Figures;
use crate::short_buffer::ShortBuffer;
use std::process::Abort;
use turtle::place::Place;
use word::fault::Fault;

const WALKED: Figures = Figures {
    modules: 5,
    segments: 2,
    length: 3,
    bounds: Some(Bounds {
        least: Place { x: -1, y: 0, z: 0 },
        greatest: Place { x: 0, y: 2, z: 0 },
    }),
    deepest: 1,
    ending: Ending::Clean,
};

// The report stands at the start of a longer buffer, and every later byte is as it was.
fn reads(rt: &impl Abort, figures: Figures, text: &[u8]) {
    let mut buffer = [b'#'; 200];
    assert_eq!(rt; figures.write(&mut buffer), Ok(text.len()));
    assert!(rt; buffer.starts_with(text));
    assert!(rt; buffer.iter().skip(text.len()).all(|byte| *byte == b'#'));
}

#[test]
fn clean(rt: HostRuntime) {
    reads(
        &rt,
        WALKED,
        b"modules 5\nsegments 2\nlength 3\nbox -1 0 0 2 0 0\ndeepest 1\nend clean\n",
    );
}

#[test]
fn open(rt: HostRuntime) {
    let begun = Figures {
        modules: 0,
        segments: 0,
        length: 0,
        bounds: None,
        deepest: 0,
        ending: Ending::Open,
    };
    reads(
        &rt,
        begun,
        b"modules 0\nsegments 0\nlength 0\nbox none\ndeepest 0\nend open\n",
    );
}

#[test]
fn longest(rt: HostRuntime) {
    let longest = Figures {
        modules: u32::MAX,
        segments: u32::MAX,
        length: u64::MAX,
        bounds: Some(Bounds {
            least: Place {
                x: -30_000,
                y: -29_998,
                z: -29_996,
            },
            greatest: Place {
                x: -29_999,
                y: -29_997,
                z: -29_995,
            },
        }),
        deepest: u8::MAX,
        ending: Ending::Broken(Fault {
            cause: u8::MAX,
            generation: u8::MAX,
            place: u32::MAX,
        }),
    };
    reads(
        &rt,
        longest,
        b"modules 4294967295\nsegments 4294967295\nlength 18446744073709551615\n\
          box -30000 -29999 -29998 -29997 -29996 -29995\ndeepest 255\nend fault 255 255 4294967295\n",
    );
}

#[test]
fn room(rt: HostRuntime) {
    let mut short = [b'#'; 159];
    assert_eq!(rt; WALKED.write(&mut short), Err(ShortBuffer));
    assert_eq!(rt; ShortBuffer.number(), 9);
    assert!(rt; short.iter().all(|byte| *byte == b'#'));
    let mut enough = [b'#'; 160];
    assert_eq!(rt; WALKED.write(&mut enough), Ok(67));
}
