// The plain types that definitions and contracts share. What they mean is said in specs/.
#![tactic(auto)]

ghost use Rattle.std.specs.Prelude.{◌≡◌};
ghost use Rattle.megaco.specs.Attempt.{number_of, is_choose};
ghost use Rattle.megaco.specs.Command.{is_add, is_subtract, in_place, is_null};

// Classes of bytes that may stand in a row: in a word, a name, a plain value, a quoted value, a domain name.
#[derive(Clone, Copy)]
pub enum Class {
    WordByte,
    NameByte,
    SafeByte,
    QuotedByte,
    DomainByte,
}

// Keywords, under Annex B.2's names and in its order.
#[derive(Clone, Copy)]
pub enum Token {
    AddToken,
    AuditToken,
    AuditValueToken,
    BothwayToken,
    CtxToken,
    EmergencyToken,
    ErrorToken,
    InactiveToken,
    IsolateToken,
    InSvcToken,
    LocalToken,
    LocalControlToken,
    LoopbackToken,
    MediaToken,
    MegacopToken,
    ModeToken,
    ModifyToken,
    MoveToken,
    OnewayToken,
    OutOfSvcToken,
    PriorityToken,
    RecvonlyToken,
    RemoteToken,
    ReplyToken,
    SendonlyToken,
    SendrecvToken,
    ServiceStatesToken,
    StatsToken,
    SubtractToken,
    TerminationStateToken,
    TestToken,
    TopologyToken,
    TransToken,
    ResponseAckToken,
}

// An action's context: `-`, a number, `$`, `*`.
#[derive(Clone, Copy)]
pub enum Context {
    Null,
    Numbered(u32),
    Choose,
    All,
}

impl Context {
    #[tactic(auto, unfolding(crate::specs::Command::is_null))]
    pub fn is_null(self) -> bool
        ensures { result ≡ is_null self }
    {
        match self {
            Context::Null => true,
            _ => false,
        }
    }

    #[tactic(auto, unfolding(crate::specs::Attempt::is_choose))]
    pub fn is_choose(self) -> bool
        ensures { result ≡ is_choose self }
    {
        match self {
            Context::Choose => true,
            _ => false,
        }
    }

    // A context's number; null, `$` and `*` are 0.
    #[tactic(auto, unfolding(crate::specs::Attempt::number_of))]
    pub fn number(self) -> u32
        ensures { result ≡ number_of self }
    {
        match self {
            Context::Numbered(c) => c,
            _ => 0,
        }
    }
}

// A context's property, as an action gives it: `PR=n`, `EG`, `TP{..}`.
#[derive(Clone, Copy)]
pub enum Property {
    Priority(u32),
    Emergency,
    Topology,
}

// What an acknowledgement names: the identifiers from a first to a last.
#[derive(Clone, Copy)]
pub struct Ack {
    pub first: u32,
    pub last: u32,
}

// How media flows between the two terminations of a triple: neither way, from the first to the second, both ways.
#[derive(Clone, Copy)]
pub enum Direction {
    Isolate,
    Oneway,
    Bothway,
}

// Whom a name in a triple means: nobody, with `*`, `$` or as ROOT; a termination that does not exist; one that stands elsewhere; the member
// that has this place in the square of flows.
#[derive(Clone, Copy)]
pub enum Party {
    Unfit,
    Absent,
    Outside,
    Member(usize),
}

// The commands that are built.
#[derive(Clone, Copy)]
pub enum Op {
    Add,
    Modify,
    Subtract,
    Move,
    AuditValue,
}

impl Op {
    #[tactic(auto, unfolding(crate::specs::Command::is_add))]
    pub fn is_add(self) -> bool
        ensures { result ≡ is_add self }
    {
        match self {
            Op::Add => true,
            _ => false,
        }
    }

    #[tactic(auto, unfolding(crate::specs::Command::is_subtract))]
    pub fn is_subtract(self) -> bool
        ensures { result ≡ is_subtract self }
    {
        match self {
            Op::Subtract => true,
            _ => false,
        }
    }

    // Whether a termination stays where it stands.
    #[tactic(auto, unfolding(crate::specs::Command::in_place))]
    pub fn in_place(self) -> bool
        ensures { result ≡ in_place self }
    {
        match self {
            Op::Modify => true,
            Op::AuditValue => true,
            _ => false,
        }
    }
}

// What a wildcard ranges over: `*`, `L/*`, `R/*`, `L/l/*`.
#[derive(Clone, Copy)]
pub enum Range {
    Everyone,
    EveryLine,
    EveryEphemeral,
    ChannelsOf(u32),
}

// What a termination's name means. `Chosen`: `$` and `R/$`; `Unchosen`: another name with `$`; `Wildcard`: a form with `*` that
// matches; `Unmatched`: another name with `*`.
#[derive(Clone, Copy)]
pub enum Name {
    Termination(usize),
    Root,
    Chosen,
    Unchosen,
    Wildcard(Range),
    Unmatched,
    Unknown,
}

// Where speech goes, as Local or Remote gives it: nothing is given; an empty text; an address, a port and a payload type.
#[derive(Clone, Copy)]
pub enum Speech {
    Kept,
    Released,
    Session(u32, u32, u32),
}

// What a command's items ask: the mode and the state that they give, whether they audit both, and what Local and Remote give.
#[derive(Clone, Copy)]
pub struct Values {
    pub mode: Option<u32>,
    pub state: Option<u32>,
    pub audited: bool,
    pub local: Speech,
    pub remote: Speech,
}

// Which property a descriptor holds: Mode in LocalControl, ServiceStates in TerminationState.
#[derive(Clone, Copy)]
pub enum Kind {
    InControl,
    InState,
}

// A flag for each descriptor that Media may hold.
#[derive(Clone, Copy)]
pub struct Descriptors {
    pub control: bool,
    pub state: bool,
    pub local: bool,
    pub remote: bool,
}

// Which of the two that hold text.
#[derive(Clone, Copy)]
pub enum Side {
    OfLocal,
    OfRemote,
}

// What a line of SDP is: one that is skipped, one of the three that are asked for with its numbers, or none of these.
#[derive(Clone, Copy)]
pub enum SdpLine {
    Skipped,
    Version,
    Connection(u32),
    Audio { port: u32, payload: u32 },
    Strange,
}

// What the lines so far have been.
#[derive(Clone, Copy)]
pub enum SdpStage {
    NoLine,
    AfterVersion,
    AfterConnection(u32),
    AfterAudio {
        address: u32,
        port: u32,
        payload: u32,
    },
    Broken,
}

// What a text in the braces of Local or Remote says: nothing, where speech goes, or what is outside our subset of SDP.
#[derive(Clone, Copy)]
pub enum SdpText {
    EmptyText,
    Described {
        address: u32,
        port: u32,
        payload: u32,
    },
    NotInSubset,
}

// Of a context: its record, how many terminations stand in it, and the two words of its flows.
#[derive(Clone, Copy)]
pub struct Seen {
    pub held: u32,
    pub members: usize,
    pub low: u32,
    pub high: u32,
}

// The figures of an ephemeral, its block: packets received, the transit of the last one, the jitter in sixteenths.
#[derive(Clone, Copy)]
pub struct Block {
    pub packets: u32,
    pub transit: u32,
    pub jitter: u64,
}

// What an attempt sees: where the termination stands, its property word, the action's context, the context that it stands in, and
// the lowest number absent, and how many lines are fitted; its place among the members of the action's context, and of the one that it
// stands in.
#[derive(Clone, Copy)]
pub struct View {
    pub here: u32,
    pub word: u32,
    pub there: Seen,
    pub from: Seen,
    pub free: u32,
    pub lines: u32,
    pub into: usize,
    pub out: usize,
}
