use crate::bodies::BODIES;
use crate::outcome::{Case, HEAD, Wrong, first_wrong};
use crate::probes::{PROBED, PROBES};
use crate::versions::{LATER, LATEST, SECOND, THIRD};
use crate::viewports::{PAIRED, VIEWPORTS};
use std::alloc::{AllocError, Global};

// Whole texts.
const TEXTS: &[Case] = &[
    // lists and conditions of a session and of the display
    (
        "flatland 1\ndisplay 100 100\nsession A\nsession B\npair t0 display A\nfence f A display\nfence g B\nrun\nA Present 0 acquire f f release f\nA Present 1 release f\nA Signal f\nA Poll\nA Wait frames 1\nA Wait credits 1\nA Wait taken 1\nA Wait fence f\ndisplay Signal f\ndisplay Wait presents B 0\ndisplay Wait fence f\nA Disconnect\n",
        0,
        20,
    ),
    // an empty list
    (
        "flatland 1\ndisplay 100 100\nsession A\npair t0 display A\nfence f A\nrun\nA Present 0 acquire release f\n",
        7,
        8,
    ),
    // acquire behind release
    (
        "flatland 1\ndisplay 100 100\nsession A\npair t0 display A\nfence f A\nrun\nA Present 0 release f acquire f\n",
        7,
        9,
    ),
    // another's fence
    (
        "flatland 1\ndisplay 100 100\nsession A\nsession B\npair t0 display A\nfence f A\nrun\nB Wait fence f\n",
        8,
        10,
    ),
    // a condition of sessions
    (
        "flatland 1\ndisplay 100 100\nsession A\npair t0 display A\nrun\ndisplay Wait frames 1\n",
        6,
        6,
    ),
    // answers
    (
        "flatland 1\ndisplay 100 100\nsession A\npair t0 display A\nrun\nA Wait answers 1\n",
        0,
        6,
    ),
    // images, turns, scales, opacities and clips
    (
        "flatland 1\ndisplay 100 100\nsession A\npair t0 display A\nbuffers b A 2 8 8\nrun\nA SetOrientation 1 4\nA SetScale 1 0 4294967295\nA SetOpacity 1 65537\nA SetClipBoundary 1\nA SetClipBoundary 1 -1 0 5 5\nA CreateImage 1 b 7 8 8\nA SetImageSampleRegion 1 0 0 8 8\nA SetImageDestinationSize 1 9 9\nA SetImageBlendingFunction 1 2\nA SetImageFlip 1 3\nA SetImageOpacity 1 0\nA ReleaseImage 1\n",
        0,
        18,
    ),
    // kind 10 view of another
    (
        "flatland 1\ndisplay 100 100\nsession A\nsession B\npair t0 display A\npair t1 A B\nrun\nA CreateView t1\n",
        8,
        10,
    ),
    // kind 2 carriage return
    (
        "flatland 1\r\ndisplay 100 100\r\nsession A\r\npair t0 display A\r\nrun\r\n",
        1,
        2,
    ),
    // kind 4 before 7
    (
        "flatland 1\ndisplay 100 100\ndisplay 0 100\nsession A\npair t0 display A\nrun\n",
        3,
        4,
    ),
    // kind 4 empty text
    ("", 1, 4),
    // kind 4 first word
    (
        "display 100 100\nflatland 1\nsession A\npair t0 display A\nrun\n",
        1,
        4,
    ),
    // kind 4 no session
    ("flatland 1\ndisplay 100 100\nrun\n", 3, 4),
    // kind 4 text ends in the head
    (
        "flatland 1\ndisplay 100 100\nsession A\npair t0 display A\n",
        5,
        4,
    ),
    // a probe without a name
    ("flatland 1\nprobe\n", 2, 8),
    // a probe of a name in use
    ("flatland 1\nsession A\nprobe A\n", 3, 4),
    // a session of a probe's name
    ("flatland 1\nprobe A\nsession A\n", 3, 4),
    // a fence of a probe
    ("flatland 1\nprobe P\nfence f P\n", 3, 9),
    // a pair of a probe
    ("flatland 1\nsession A\nprobe P\npair p P A\n", 4, 9),
    // ratio in version one head
    (
        "flatland 1\ndisplay 100 100 65536\nsession A\npair t0 display A\nrun\n",
        2,
        8,
    ),
    // version four
    (
        "flatland 4\ndisplay 100 100\nsession A\npair t0 display A\nrun\n",
        1,
        13,
    ),
    // version three
    (
        "flatland 3\ndisplay 100 100\nsession A\npair t0 display A\nrun\n",
        0,
        5,
    ),
    // a ratio in the head of version three, as it is read and not
    (
        "flatland 3\ndisplay 100 100 16384\nsession dpr\npair t0 display dpr\nrun\ndpr Clear\n",
        0,
        6,
    ),
    ("flatland 3\ndisplay 100 100 16383\n", 2, 7),
    ("flatland 3\ndisplay 100 100 1048577\n", 2, 7),
    ("flatland 3\ndisplay 100 100 65536 1\n", 2, 8),
    ("flatland 3\ndisplay 100\n", 2, 8),
    // ratio in version two head
    (
        "flatland 2\ndisplay 100 100 65536\nsession A\npair t0 display A\nrun\n",
        2,
        8,
    ),
    // version two
    (
        "flatland 2\ndisplay 100 100\nsession A\npair t0 display A\nrun\n",
        0,
        5,
    ),
    // a later word as a name
    (
        "flatland 2\ndisplay 1 1\nsession unsquashable\npair p display unsquashable\nrun\nunsquashable Clear\n",
        0,
        6,
    ),
    // version two with a zero before it
    ("flatland 02\n", 1, 7),
    // version two and a word
    ("flatland 2 2\n", 1, 8),
    // version zero
    (
        "flatland 0\ndisplay 100 100\nsession A\npair t0 display A\nrun\n",
        1,
        13,
    ),
    // a viewport
    (
        "flatland 1\ndisplay 100 100\nsession A\nsession B\npair t0 display A\npair t1 A B\nrun\nA CreateViewport 1 t1 9 9\n",
        0,
        8,
    ),
    // limit: 16 sessions
    (
        "flatland 1\ndisplay 100 100\nsession S1\nsession S2\nsession S3\nsession S4\nsession S5\nsession S6\nsession S7\nsession S8\nsession S9\nsession S10\nsession S11\nsession S12\nsession S13\nsession S14\nsession S15\nsession S16\npair t0 display S1\nrun\n",
        0,
        20,
    ),
    // limit: 17 sessions
    (
        "flatland 1\ndisplay 100 100\nsession S1\nsession S2\nsession S3\nsession S4\nsession S5\nsession S6\nsession S7\nsession S8\nsession S9\nsession S10\nsession S11\nsession S12\nsession S13\nsession S14\nsession S15\nsession S16\nsession S17\npair t0 display S1\nrun\n",
        19,
        11,
    ),
    // limit: display of 0
    (
        "flatland 1\ndisplay 100 0\nsession A\npair t0 display A\nrun\n",
        2,
        7,
    ),
    // limit: display of 65536
    (
        "flatland 1\ndisplay 65536 65536\nsession A\npair t0 display A\nrun\nA CreateView t0\nA Present 0\ndisplay begin 0\ndisplay done\n",
        0,
        9,
    ),
    // limit: display of 65537
    (
        "flatland 1\ndisplay 65537 100\nsession A\npair t0 display A\nrun\n",
        2,
        7,
    ),
    // a keyword as a name
    ("flatland 1\nsession acquire\n", 2, 4),
    // a call as a name
    (
        "flatland 1\ndisplay 1 1\nsession Clear\npair begin display Clear\nrun\nClear Clear\n",
        0,
        6,
    ),
    // a name of 16 letters
    ("flatland 1\nsession abcdefghijklmnop\n", 3, 4),
    // a name of 17 letters
    ("flatland 1\nsession abcdefghijklmnopq\n", 2, 4),
    // a name that begins with a digit
    ("flatland 1\nsession 1a\n", 2, 4),
    // a name with a dash
    ("flatland 1\nsession a-b\n", 2, 4),
    // a name of two sorts
    ("flatland 1\nsession A\nbuffers A A 1 1 1\n", 3, 4),
    // a collection of 64
    ("flatland 1\nsession A\nbuffers b A 64 65536 1\n", 4, 4),
    // a collection of 65
    ("flatland 1\nsession A\nbuffers b A 65 1 1\n", 3, 7),
    // a collection of the display
    ("flatland 1\nsession A\nbuffers b display 1 1 1\n", 3, 9),
    // a fence without owners
    ("flatland 1\nsession A\nfence f\n", 3, 8),
    // a fence with an owner twice
    ("flatland 1\nsession A\nfence f A display A\n", 4, 4),
    // a fence with an owner that is no session
    ("flatland 1\nsession A\nfence f A B\n", 3, 9),
    // a pair of the display twice, with words missing
    (
        "flatland 1\nsession A\npair p display A\npair q display\n",
        4,
        4,
    ),
    // a pair with a view end of the display
    ("flatland 1\nsession A\npair p A display\n", 3, 9),
    // a version without a number
    ("flatland\n", 1, 8),
    // a version beyond 32 bits
    ("flatland 4294967296\n", 1, 7),
    // a second version
    ("flatland 1\nflatland 1\n", 2, 4),
    // sizes of another length
    ("flatland 1\ndisplay 5 5 x\n", 2, 8),
    // only remarks
    ("# one\n\n# two", 4, 4),
];

// All cases, by their heads.
const ALL: [(&str, &[Case]); 6] = [
    ("", TEXTS),
    (HEAD, BODIES),
    (PROBED, PROBES),
    (PAIRED, VIEWPORTS),
    (SECOND, LATER),
    (THIRD, LATEST),
];

/// The first of all cases that has another outcome, and which.
fn first_wrong_of_all(alloc: Global) -> Result<Option<Wrong>, AllocError> {
    for (head, cases) in ALL.iter() {
        let wrong = first_wrong(alloc, head, cases)?;
        if wrong.is_some() {
            return Ok(wrong);
        }
    }
    Ok(None)
}

#[test]
fn texts(rt: HostRuntime) {
    assert_eq!(rt; first_wrong_of_all(rt.alloc()), Ok(None));
}
