use flat_base::NoMemory;
use flat_places::Script;
use flat_print::print;
use flat_script::{ScriptError, parse};
use std::alloc::Global;

// The same declarations and lines, as somebody may write them and in the canonical order.
const LOOSE: &str =
    "# a shell\nflatland 1\nsession A\nfence f A display A\npair t0 display A\n\nbuffers b A 2 8 9\nsession B\npair t1 A B\ndisplay 100 90\nrun\nB CreateView t1\nA SetTranslation 7 -5 40\nA SetHitRegions 1 0 0 1 1 0 -5 0 1 1 1\nA SetHitRegions 1\nA SetSolidFill 2 1 2 3 4 5 6\nA SetInfiniteHitRegion 1 1\n#\nA Present 9\ndisplay begin 16\ndisplay done\nA Clear\n";

const CANONICAL: &str =
    "flatland 1\ndisplay 100 90\nsession A\nsession B\nbuffers b A 2 8 9\npair t0 display A\npair t1 A B\nfence f A display A\nrun\nB CreateView t1\nA SetTranslation 7 -5 40\nA SetHitRegions 1 0 0 1 1 0 -5 0 1 1 1\nA SetHitRegions 1\nA SetSolidFill 2 1 2 3 4 5 6\nA SetInfiniteHitRegion 1 1\nA Present 9\ndisplay begin 16\ndisplay done\nA Clear";

// An inset of zeros goes without saying for a viewport that is made, but not for one
// that is changed.
const INSETS: &str =
    "flatland 1\ndisplay 100 100\nsession A\nsession B\npair t0 display A\npair t1 A B\nrun\nA CreateViewport 1 t1 5 6 0 0 0 0\nA CreateViewport 2 t1 5 6 0 0 0 1\nA SetViewportProperties 1 7 8\nA SetViewportProperties 1 7 8 0 0 0 0\nA ReleaseViewport 1\nB GetLayout\nB GetStatus\nA GetChildStatus 2\nB Wait answers 3\ndisplay hit -1 2147483647";

const INSETS_PRINTED: &str =
    "flatland 1\ndisplay 100 100\nsession A\nsession B\npair t0 display A\npair t1 A B\nrun\nA CreateViewport 1 t1 5 6\nA CreateViewport 2 t1 5 6 0 0 0 1\nA SetViewportProperties 1 7 8\nA SetViewportProperties 1 7 8 0 0 0 0\nA ReleaseViewport 1\nB GetLayout\nB GetStatus\nA GetChildStatus 2\nB Wait answers 3\ndisplay hit -1 2147483647";

// Lists of fences, and a condition of another session.
const CALLS: &str =
    "flatland 1\ndisplay 100 100\nsession A\nsession B\npair t0 display A\npair t1 A B\nfence f A display\nfence g display A\nrun\nA CreateViewport 1 t1 5 6\nA Present 3 release f\nA Present 4 acquire g release f\ndisplay Wait presents B 4";

// Probes, declared between other lines.
const ASKED: &str =
    "flatland 1\nprobe P\nfence f display\nsession A\nprobe Q\npair t0 display A\ndisplay 9 9\nrun\nQ await 2\nP hit -1 5\nQ hit 0 0";

const ASKED_PRINTED: &str =
    "flatland 1\ndisplay 9 9\nsession A\nprobe P\nprobe Q\npair t0 display A\nfence f display\nrun\nQ await 2\nP hit -1 5\nQ hit 0 0";

// What came with the second version.
const LATER: &str =
    "flatland 2\nsession A\nfence f A\npair t0 display A\ndisplay 9 9\nrun\nA Present 1 unsquashable\nA Present 2 unsquashable acquire f release f\nA Present 3 release f\nA ReplaceChildren 1\nA ReplaceChildren 1 3 2\n";

const LATER_PRINTED: &str =
    "flatland 2\ndisplay 9 9\nsession A\npair t0 display A\nfence f A\nrun\nA Present 1 unsquashable\nA Present 2 unsquashable acquire f release f\nA Present 3 release f\nA ReplaceChildren 1\nA ReplaceChildren 1 3 2";

// Pixel ratios: a first one that says nothing is left out.
const LATEST: &str =
    "flatland 3\ndisplay 9 9 65536\nsession A\npair t0 display A\nrun\ndisplay dpr 16384\n";

const LATEST_PRINTED: &str =
    "flatland 3\ndisplay 9 9\nsession A\npair t0 display A\nrun\ndisplay dpr 16384";

const SCALED: &str = "flatland 3\ndisplay 9 9 16384\nsession A\npair t0 display A\nrun";

// Texts, and what is printed of their scripts, which is printed of itself.
const PRINTED: [(&str, &str); 7] = [
    (LOOSE, CANONICAL),
    (INSETS, INSETS_PRINTED),
    (CALLS, CALLS),
    (ASKED, ASKED_PRINTED),
    (LATER, LATER_PRINTED),
    (LATEST, LATEST_PRINTED),
    (SCALED, SCALED),
];

/// Whether a text is what is printed of a script.
fn is_printed(alloc: Global, script: &Script, canonical: &str) -> Result<bool, NoMemory> {
    let printed = print(alloc, script)?;
    Ok(printed.as_slice() == canonical.as_bytes())
}

/// Whether a text is what is printed of the script that another has.
fn is_reprinted(
    alloc: Global,
    text: &str,
    canonical: &str,
) -> Result<Result<bool, NoMemory>, ScriptError> {
    let script = parse(alloc, text.as_bytes())?;
    let is_printed = is_printed(alloc, &script, canonical);
    drop(script);
    Ok(is_printed)
}

/// The first of the texts of which something else is printed.
fn first_wrong(alloc: Global) -> Option<&'static str> {
    for (text, canonical) in PRINTED.iter() {
        for text in [*text, *canonical] {
            if is_reprinted(alloc, text, canonical) != Ok(Ok(true)) {
                return Some(text);
            }
        }
    }
    None
}

#[test]
fn printed(rt: HostRuntime) {
    assert_eq!(rt; first_wrong(rt.alloc()), None);
}
