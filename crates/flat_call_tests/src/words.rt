use flat_words::{ServiceWord, read};
use std::test::Fail;

const CALLS: [(&[&str], Option<ServiceWord>); 28] = [
    (&["play"], Some(ServiceWord::Play)),
    (&["race"], Some(ServiceWord::Race)),
    (&["judge"], Some(ServiceWord::Judge)),
    (&["stress", "1"], Some(ServiceWord::Stress(1))),
    (&["stress", "500"], Some(ServiceWord::Stress(500))),
    (&["film"], Some(ServiceWord::Film)),
    (&["film", "film"], None),
    (&[], None),
    (&[""], None),
    (&["-h"], None),
    (&["--"], None),
    (&["--help"], None),
    (&["Play"], None),
    (&["play", "play"], None),
    (&["race", ""], None),
    (&["stress"], None),
    (&["stress", ""], None),
    (&["stress", "0"], None),
    (&["stress", "501"], None),
    (&["stress", "03"], None),
    (&["stress", "+3"], None),
    (&["stress", "-3"], None),
    (&["stress", "3", "3"], None),
    (&["stress", "100000000000000000003"], None),
    (&["3", "stress"], None),
    (&["stress", "3", "-"], None),
    (&["-", "play"], None),
    (&["play", "-h"], None),
];

#[test]
fn calls(rt: HostRuntime) -> Result<(), Fail> {
    let alloc = rt.alloc();
    for (words, form) in CALLS.iter() {
        let mut given = Vec::new(alloc);
        for word in words.iter() {
            given.push(word.to_string(alloc)?)?;
        }
        assert_eq!(rt; read(alloc, &given)?, *form);
    }
    Ok(())
}
