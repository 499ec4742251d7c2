// The codes of the calls, and how many words each takes.

// A code by its engine, which its first digit names, and by its last digit. The acknack count: 50.
#[derive(Clone, Copy)]
pub(crate) enum Code {
    Sequence(SetCode),
    Fragment(SetCode),
    Assembler(AssemblerCode),
    Proxy(ProxyCode),
    Counter,
}

// Numbers and sets: 1x of sequence numbers, 2x of fragment numbers.
#[derive(Clone, Copy)]
pub(crate) enum SetCode {
    WriteNumber,
    ReadNumber,
    ReadSet,
    WriteSet,
    WalkSet,
    MeasureSet,
    MakeSet,
}

// A fragment assembler: 3x.
#[derive(Clone, Copy)]
pub(crate) enum AssemblerCode {
    SetUp,
    SetUpOn,
    Fragment,
    View,
    Clean,
    Missing,
    IsInAssembly,
    InAssembly,
}

// A writer proxy: 4x.
#[derive(Clone, Copy)]
pub(crate) enum ProxyCode {
    SetUp,
    SetUpOn,
    Received,
    Irrelevant,
    IrrelevantRange,
    IrrelevantUpTo,
    IsIgnored,
    Status,
    Last,
    Base,
    Missing,
}

// How many words follow a code: so many, or so many and a list.
#[derive(Clone, Copy)]
enum Takes {
    Words(usize),
    List(usize),
}

impl Takes {
    fn fits(self, n: usize) -> bool {
        match self {
            Takes::Words(words) => n == words,
            Takes::List(words) => words <= n,
        }
    }
}

// By the last digit of a code.
const SET_CODES: [(SetCode, Takes); 7] = [
    (SetCode::WriteNumber, Takes::Words(3)),
    (SetCode::ReadNumber, Takes::List(1)),
    (SetCode::ReadSet, Takes::List(1)),
    (SetCode::WriteSet, Takes::Words(12)),
    (SetCode::WalkSet, Takes::Words(12)),
    (SetCode::MeasureSet, Takes::Words(10)),
    (SetCode::MakeSet, Takes::List(1)),
];

const ASSEMBLER_CODES: [(AssemblerCode, Takes); 8] = [
    (AssemblerCode::SetUp, Takes::Words(3)),
    (AssemblerCode::SetUpOn, Takes::Words(4)),
    (AssemblerCode::Fragment, Takes::List(7)),
    (AssemblerCode::View, Takes::Words(3)),
    (AssemblerCode::Clean, Takes::Words(2)),
    (AssemblerCode::Missing, Takes::Words(2)),
    (AssemblerCode::IsInAssembly, Takes::Words(1)),
    (AssemblerCode::InAssembly, Takes::Words(0)),
];

const PROXY_CODES: [(ProxyCode, Takes); 11] = [
    (ProxyCode::SetUp, Takes::Words(0)),
    (ProxyCode::SetUpOn, Takes::Words(1)),
    (ProxyCode::Received, Takes::Words(2)),
    (ProxyCode::Irrelevant, Takes::Words(1)),
    (ProxyCode::IrrelevantRange, Takes::Words(2)),
    (ProxyCode::IrrelevantUpTo, Takes::Words(1)),
    (ProxyCode::IsIgnored, Takes::Words(1)),
    (ProxyCode::Status, Takes::Words(1)),
    (ProxyCode::Last, Takes::Words(0)),
    (ProxyCode::Base, Takes::Words(0)),
    (ProxyCode::Missing, Takes::Words(3)),
];

// The row of a table, where so many words are what it takes.
fn row<C: Copy>(table: &[(C, Takes)], i: u64, n: usize) -> Option<C> {
    let (code, takes) = table.get(i as usize)?;
    takes.fits(n).then_some(*code)
}

// The call with this code, where it has a line of so many words after the code.
pub(crate) fn code_of(code: u64, n: usize) -> Option<Code> {
    let last = code % 16;
    match code / 16 {
        1 => row(&SET_CODES, last, n).map(Code::Sequence),
        2 => row(&SET_CODES, last, n).map(Code::Fragment),
        3 => row(&ASSEMBLER_CODES, last, n).map(Code::Assembler),
        4 => row(&PROXY_CODES, last, n).map(Code::Proxy),
        5 if last == 0 && n == 1 => Some(Code::Counter),
        _ => None,
    }
}
