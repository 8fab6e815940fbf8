//! Texts with families that couple their functions, and families that do not, as worked out by
//! hand.
use super::{GIVEN, SIZE, SKIPPING, STEPPING, USERS_FIRST, USERS_SECOND};
use c_ast::Place;
use horn_clauses::{Node, Rel};

// ---- the texts

/// Two texts, and a condition; no text is no condition.
pub type Texts = (&'static str, &'static str, &'static str);

pub const ADDED: Texts = ("int f(int a){return a+a;}", "int f(int a){return 2*a;}", "");

const FROM_ONE: Texts = (
    "int f(int n){int i=0; int s=0; while(__mark(42) & (i<n)){s=s+i; i=i+1;} return s;}",
    "int f(int n){int i=1; int s=0; while(__mark(42) & (i<n)){s=s+i; i=i+1;} return s;}",
    "",
);

const BY_TWO: Texts = (
    "int f(int n){int i=0; int s=0; while(__mark(42) & (i<n)){s=s+i; i=i+1;} return s;}",
    "int f(int n){int i=0; int s=0; while(__mark(42) & (i+1<n)){s=s+i; s=s+i+1; i=i+2;} \
    if(i<n) s=s+i; return s;}",
    "",
);

const ENDLESS: Texts = (
    "int f(void){while(__mark(1) & 1) ; return 0;}",
    "int f(void){return 0;}",
    "",
);

const SKIPS: Texts = (SKIPPING, STEPPING, "");

const USERS: Texts = (USERS_FIRST, USERS_SECOND, "");

const DONE_FIRST: Texts = (
    "int f(int n){int i=0; do i++; while(i<n); return i;}",
    "int f(int n){int i=1; while(i<n) i++; return i;}",
    "",
);

const SIZES: Texts = (GIVEN, SIZE, "a >= 0");

const NEVER: Texts = ("int f(int a){return 1;}", "int f(int a){return 2;}", "0");

const TOO_WIDE: Texts = ("int f(int a){return 9223372036854775807;}", GIVEN, "");

const SWAPPED: Texts = (
    "int f(int a,int b){return a+b;}",
    "int f(int a,int b){return b+a;}",
    "",
);

// ---- the families

/// The coefficients, the constant and the relation of an atom; `None` is the atom `false`.
pub type AtomEntries = Option<(&'static [i64], i64, Rel)>;

/// A node, and its atoms.
pub type NodeEntries = (Node, &'static [AtomEntries]);

const ENTRIES: Node = Node(Place::Entry, Place::Entry);

const MARKS: Node = Node(Place::Mark(42), Place::Mark(42));

const FIRST_AT_MARK: Node = Node(Place::Mark(42), Place::Exit);

const SECOND_AT_MARK: Node = Node(Place::Exit, Place::Mark(42));

const EXITS: Node = Node(Place::Exit, Place::Exit);

const SAME: AtomEntries = Some((&[1, -1], 0, Rel::Eq));

const NOT_LESS: AtomEntries = Some((&[1, -1], 0, Rel::AtLeast));

const NOT_GREATER: AtomEntries = Some((&[-1, 1], 0, Rel::AtLeast));

pub const SAME_BEGIN: NodeEntries = (ENTRIES, &[SAME]);

pub const SAME_END: NodeEntries = (EXITS, &[SAME]);

const NOT_FIRST: NodeEntries = (FIRST_AT_MARK, &[None]);

const NOT_SECOND: NodeEntries = (SECOND_AT_MARK, &[None]);

/// All three variables are equal.
const SAME_STATES: &[AtomEntries] = &[
    Some((&[1, 0, 0, -1, 0, 0], 0, Rel::Eq)),
    Some((&[0, 1, 0, 0, -1, 0], 0, Rel::Eq)),
    Some((&[0, 0, 1, 0, 0, -1], 0, Rel::Eq)),
];

/// The second variable of side A is one more than side B's.
const ONE_MORE: &[AtomEntries] = &[
    Some((&[1, 0, 0, -1, 0, 0], 0, Rel::Eq)),
    Some((&[0, 1, 0, 0, -1, 0], 1, Rel::Eq)),
    Some((&[0, 0, 1, 0, 0, -1], 0, Rel::Eq)),
];

/// Side A is done, and side B will be at once.
const SECOND_ENDS: &[AtomEntries] = &[
    Some((&[1, 0, 0, -1], 0, Rel::Eq)),
    Some((&[0, -1, 1, 0], 0, Rel::AtLeast)),
];

const SECOND_IS_OFF: &[AtomEntries] = &[
    Some((&[1, 0, 0, -1], 1, Rel::Eq)),
    Some((&[0, -1, 1, 0], 0, Rel::AtLeast)),
];

const STRAIGHT: &[NodeEntries] = &[
    SAME_BEGIN,
    (
        EXITS,
        &[
            SAME,
            Some((&[1, -1], -1, Rel::AtLeast)),
            NOT_LESS,
            Some((&[-1, 1], -1, Rel::AtLeast)),
            NOT_GREATER,
        ],
    ),
];

const LATER: &[NodeEntries] = &[
    SAME_BEGIN,
    (MARKS, SAME_STATES),
    NOT_FIRST,
    (SECOND_AT_MARK, SECOND_ENDS),
    SAME_END,
];

const OFF: &[NodeEntries] = &[
    SAME_BEGIN,
    (MARKS, SAME_STATES),
    NOT_FIRST,
    (SECOND_AT_MARK, SECOND_IS_OFF),
    SAME_END,
];

const TOGETHER: &[NodeEntries] = &[
    SAME_BEGIN,
    (MARKS, SAME_STATES),
    NOT_FIRST,
    NOT_SECOND,
    SAME_END,
];

const SEVENTH: &[NodeEntries] = &[
    SAME_BEGIN,
    (Node(Place::Mark(7), Place::Mark(7)), SAME_STATES),
    (Node(Place::Mark(7), Place::Exit), &[None]),
    (Node(Place::Exit, Place::Mark(7)), &[None]),
    SAME_END,
];

const AHEAD: &[NodeEntries] = &[
    SAME_BEGIN,
    (MARKS, ONE_MORE),
    NOT_FIRST,
    NOT_SECOND,
    SAME_END,
];

const OWN_MARKS: &[NodeEntries] = &[
    SAME_BEGIN,
    (
        Node(Place::Mark(1_000_000), Place::Mark(1_000_000)),
        &[
            Some((&[1, 0, -1, 0], 0, Rel::Eq)),
            Some((&[0, 1, 0, -1], 0, Rel::Eq)),
        ],
    ),
    (Node(Place::Mark(1_000_000), Place::Exit), &[None]),
    (Node(Place::Exit, Place::Mark(1_000_000)), &[None]),
    SAME_END,
];

const NOT_ENDED: &[NodeEntries] = &[
    (ENTRIES, &[]),
    (Node(Place::Mark(1), Place::Exit), &[]),
    (EXITS, &[None]),
];

const BOUNDED: &[NodeEntries] = &[
    SAME_BEGIN,
    (
        EXITS,
        &[
            SAME,
            Some((&[1, 0], -1, Rel::AtLeast)),
            Some((&[1, 0], 0, Rel::AtLeast)),
            Some((&[1, -1], -1, Rel::AtLeast)),
            NOT_LESS,
            Some((&[0, 1], -1, Rel::AtLeast)),
            Some((&[0, 1], 0, Rel::AtLeast)),
            Some((&[-1, 1], -1, Rel::AtLeast)),
            NOT_GREATER,
        ],
    ),
];

const BEGUN: AtomEntries = Some((&[1, 0, -1, 0], 0, Rel::Eq));

const BEGUN_TOO: AtomEntries = Some((&[0, 1, 0, -1], 0, Rel::Eq));

/// Two texts, an alignment and a family, and what comes of them.
pub struct Case {
    pub texts: Texts,
    /// The number of the alignment.
    pub number: u32,
    pub family: &'static [NodeEntries],
    /// Whether the family couples the functions, or the refusal.
    pub answer: &'static str,
}

#[rattlefmt::skip]
pub const CASES: [Case; 24] = [
    Case { texts: ADDED, number: 1, family: STRAIGHT, answer: "coupled" },
    Case { texts: ADDED, number: 12, family: &[SAME_BEGIN, SAME_END], answer: "coupled" },
    Case { texts: FROM_ONE, number: 2, family: LATER, answer: "coupled" },
    Case { texts: BY_TWO, number: 7, family: TOGETHER, answer: "coupled" },
    Case { texts: ENDLESS, number: 1, family: NOT_ENDED, answer: "coupled" },
    Case { texts: SKIPS, number: 1, family: SEVENTH, answer: "coupled" },
    Case { texts: USERS, number: 1, family: AHEAD, answer: "coupled" },
    Case { texts: DONE_FIRST, number: 1, family: OWN_MARKS, answer: "coupled" },
    Case { texts: SIZES, number: 1, family: BOUNDED, answer: "coupled" },
    Case { texts: NEVER, number: 1, family: &[SAME_BEGIN, (EXITS, &[None])], answer: "coupled" },
    Case {
        texts: SWAPPED,
        number: 3,
        family: &[(ENTRIES, &[BEGUN, BEGUN_TOO]), SAME_END],
        answer: "coupled",
    },
    // The limit of the product comes before all else.
    Case {
        texts: TOO_WIDE,
        number: 1,
        family: &[],
        answer: "Limit(AtPlace { side: A, place: Entry, limit: WideForm })",
    },
    // A node is missing, or there is one too many, or two stand in another order.
    Case {
        texts: FROM_ONE,
        number: 2,
        family: &[SAME_BEGIN, (MARKS, SAME_STATES), NOT_FIRST, SAME_END],
        answer: "Shape",
    },
    Case {
        texts: ADDED,
        number: 1,
        family: &[SAME_BEGIN, (MARKS, SAME_STATES), SAME_END],
        answer: "Shape",
    },
    Case { texts: ADDED, number: 1, family: &[SAME_END, SAME_BEGIN], answer: "Shape" },
    // An atom is too long.
    Case {
        texts: ADDED,
        number: 1,
        family: &[(ENTRIES, &[]), (EXITS, &[Some((&[1, -1, 0], 0, Rel::Eq))])],
        answer: "Shape",
    },
    // The entries have another atom, or the equalities in another order.
    Case {
        texts: ADDED,
        number: 1,
        family: &[(ENTRIES, &[SAME, NOT_LESS]), (EXITS, &[])],
        answer: "AtEntry",
    },
    Case {
        texts: SWAPPED,
        number: 3,
        family: &[(ENTRIES, &[BEGUN_TOO, BEGUN]), SAME_END],
        answer: "AtEntry",
    },
    // Both inequalities are no equality.
    Case {
        texts: ADDED,
        number: 1,
        family: &[SAME_BEGIN, (EXITS, &[NOT_LESS, NOT_GREATER])],
        answer: "AtExit",
    },
    // The exits are met.
    Case {
        texts: ADDED,
        number: 1,
        family: &[SAME_BEGIN, (EXITS, &[None])],
        answer: "Obligation(0)",
    },
    // Under the first alignment `i` is 0 and 1 when the loop is met.
    Case { texts: FROM_ONE, number: 1, family: LATER, answer: "Obligation(2)" },
    // A constant is one less than it should be, or one more.
    Case { texts: USERS, number: 1, family: TOGETHER, answer: "Obligation(3)" },
    Case { texts: FROM_ONE, number: 2, family: OFF, answer: "Obligation(6)" },
    Case {
        texts: SIZES,
        number: 1,
        family: &[SAME_BEGIN, (EXITS, &[SAME, Some((&[1, 0], 1, Rel::AtLeast))])],
        answer: "Obligation(5)",
    },
];
