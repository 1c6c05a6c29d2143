use pb_explain_source::{Page, Part, Source};
use pb_text::{NoMemory, Place};

/// Places of a file and what looks like one, and places that it doesn't have.
fn say_places(page: &mut Page) -> Result<(), NoMemory> {
    page.point(Place { line: 2, col: 1 }, &[Part::Text("the end, q:7:")])?;
    page.say(&[Part::Text("q:7:"), Part::Number(3), Part::Text(": 1:2: ")])?;
    page.point(Place { line: 1, col: 4 }, &[Part::Text("behind")])?;
    page.point(Place { line: 3, col: 1 }, &[Part::Text("below")])
}

#[test]
fn tells_places_of_the_file_alone(rt: HostRuntime) -> Result<(), NoMemory> {
    let source = Source {
        file: "p",
        bytes: b"ab\n",
    };
    let mut page = Page::new(rt.alloc());
    assert!(rt; say_places(&mut page).is_ok());
    let text = page.text(rt.alloc(), &source)?;
    let wanted = b"p:2:1: the end, q:7:\n    2 | \n      | ^\nq:7:3:.1:2: p: behind\np: below\n";
    assert!(rt; text.as_slice() == wanted.as_slice());
    Ok(())
}
