//! Loads within smaller limits than those of the program, which no run of it shows, worked out by
//! hand.
ghost use Rattle.std.specs.Prelude.{◌≡◌, true};
ghost use Rattle.gq_loader.specs.Limits.{IsWithin};

use crate::made::{Test, bytes, text};
use gq_base::List;
use gq_io::SureFiles;
use gq_loader::{Limits, LoadRefusal, load};
use gq_store::Graph;

// Two lines name one file, which counts for each of them.
const FILES: [(&str, &str); 3] = [
    (
        "g.manifest",
        "node Person person.csv\nnode Friend person.csv\nrel KNOWS Person Friend many_many knows.csv\n",
    ),
    ("person.csv", "id:int\n1\n2\n3\n"),
    ("knows.csv", "from,to\n1,2\n2,1\n1,3\n3,3\n1,2\n"),
];

fn files(rt: &impl Test) -> SureFiles {
    let mut names = List::new(rt.alloc());
    let mut contents = List::new(rt.alloc());
    for (name, content) in FILES.iter() {
        names.push(text(rt, name)).expect(rt, "memory");
        contents
            .push(bytes(rt, content.as_bytes()))
            .expect(rt, "memory");
    }
    assert!(rt; names.len() == contents.len());
    SureFiles::new(names, contents)
}

// No limit is greater than the standard one.
fn is_standard(limits: &Limits) -> bool
    ensures { result ≡ true → IsWithin limits.now }
{
    let most = Limits::standard();
    limits.file_bytes <= most.file_bytes
        && limits.total_bytes <= most.total_bytes
        && limits.nodes <= most.nodes
        && limits.rels <= most.rels
}

// What a limit refuses.
#[derive(Clone, Copy, Debug)]
enum Wanted {
    Nothing,
    Rows(&'static str),
    Bytes(&'static str),
}

fn is_refused(refusal: &LoadRefusal, wanted: Wanted) -> bool {
    match (refusal, wanted) {
        (LoadRefusal::TooManyRows { file }, Wanted::Rows(name)) => file.is(name),
        (LoadRefusal::FileTooLong { name: file }, Wanted::Bytes(name)) => file.is(name),
        _ => false,
    }
}

fn is_ended(ended: &Result<Graph, LoadRefusal>, wanted: Wanted) -> bool {
    match ended {
        Ok(_) => matches!(wanted, Wanted::Nothing),
        Err(refusal) => is_refused(refusal, wanted),
    }
}

// Whether the load within the limits ends as it should.
fn ends(rt: &impl Test, limits: &Limits, wanted: Wanted) -> bool {
    let mut files = files(rt);
    loads(rt, &mut files, limits, wanted)
}

fn loads(rt: &impl Test, files: &mut SureFiles, limits: &Limits, wanted: Wanted) -> bool {
    assert!(rt; is_standard(limits));
    let ended = load(rt.alloc(), files, "g.manifest", limits);
    is_ended(&ended, wanted)
}

// The two tables of 13 bytes and three rows, and the one of 28 bytes and five relationships.
const FITS: Limits = Limits {
    file_bytes: 28,
    total_bytes: 54,
    nodes: 3,
    rels: 5,
};

const LIMITED: [(Limits, Wanted); 7] = [
    (FITS, Wanted::Nothing),
    (Limits { nodes: 2, ..FITS }, Wanted::Rows("person.csv")),
    (Limits { rels: 4, ..FITS }, Wanted::Rows("knows.csv")),
    (
        Limits {
            file_bytes: 12,
            ..FITS
        },
        Wanted::Bytes("person.csv"),
    ),
    (
        Limits {
            file_bytes: 27,
            ..FITS
        },
        Wanted::Bytes("knows.csv"),
    ),
    (
        Limits {
            total_bytes: 25,
            ..FITS
        },
        Wanted::Bytes("person.csv"),
    ),
    (
        Limits {
            total_bytes: 53,
            ..FITS
        },
        Wanted::Bytes("knows.csv"),
    ),
];

#[test]
fn limits_are_reached_and_not_passed(rt: HostRuntime) {
    for (limits, wanted) in LIMITED.iter() {
        assert!(rt; ends(&rt, limits, *wanted), "{wanted:?}");
    }
}
