// The calls of tables, by their names.

/// What is called.
#[derive(Clone, Copy)]
pub enum Call {
    RegionNew,
    RegionAlloc,
    RegionFree,
    UniqueAlloc,
    UniqueFree,
    KeyNew,
    KeyOpen,
    KeyClose,
    KeyFree,
    Tag,
    SetTag,
    Free,
    Fresh,
    Touched,
    Load8,
    Store8,
    Live,
    Pages,
}

const CALLS: [(&str, Call); 18] = [
    ("region_new", Call::RegionNew),
    ("region_alloc", Call::RegionAlloc),
    ("region_free", Call::RegionFree),
    ("unique_alloc", Call::UniqueAlloc),
    ("unique_free", Call::UniqueFree),
    ("key_new", Call::KeyNew),
    ("key_open", Call::KeyOpen),
    ("key_close", Call::KeyClose),
    ("key_free", Call::KeyFree),
    ("tag", Call::Tag),
    ("set_tag", Call::SetTag),
    ("free", Call::Free),
    ("fresh", Call::Fresh),
    ("touched", Call::Touched),
    ("load8", Call::Load8),
    ("store8", Call::Store8),
    ("live", Call::Live),
    ("pages", Call::Pages),
];

/// The call of a name.
pub fn call_of(name: &str) -> Option<Call> {
    for (text, call) in CALLS.iter() {
        if *text == name {
            return Some(*call);
        }
    }
    None
}
