//! Words in every order, against a model that knows what each piece says and reads no words.

use sj_base::mode::Policy;
use sj_base::program::Machine;
use sj_base::sequence::Sequence;
use sj_words::{Options, WordsRefusal, machine_of, read_words, swap_wish};
use std::alloc::{AllocError, Global};
use std::test::Fail;

// What a piece of a command line says, by the model.
#[derive(Clone, Copy)]
enum Says {
    Workers(u8),
    Sched(Policy),
    Node(u64),
    Nodes(u8),
    Swap(&'static str),
    SwapSize(u64),
    Trace,
    Summary,
    // Nothing that is accepted, wherever it stands.
    Nothing,
}

// One or two words of a command line; a piece of one word has an empty second.
#[derive(Clone, Copy)]
struct Piece {
    first: &'static str,
    second: &'static str,
    says: Says,
}

fn make_piece(first: &'static str, second: &'static str, says: Says) -> Piece {
    Piece {
        first,
        second,
        says,
    }
}

// Seven things that go together, each said in one of two ways.
fn setting(number: usize, joined: bool) -> Piece {
    match (number, joined) {
        (0, false) => make_piece("--workers", "7", Says::Workers(7)),
        (0, true) => make_piece("--workers=7", "", Says::Workers(7)),
        (1, false) => make_piece("--sched", "prio", Says::Sched(Policy::Prio)),
        (1, true) => make_piece("--sched=prio", "", Says::Sched(Policy::Prio)),
        (2, false) => make_piece("--node", "4096", Says::Node(4096)),
        (2, true) => make_piece("--node=4096", "", Says::Node(4096)),
        (3, false) => make_piece("--nodes", "3", Says::Nodes(3)),
        (3, true) => make_piece("--nodes=3", "", Says::Nodes(3)),
        (4, false) => make_piece("--swap", "a=b", Says::Swap("a=b")),
        (4, true) => make_piece("--swap=a=b", "", Says::Swap("a=b")),
        (5, false) => make_piece("--swap-size", "0", Says::SwapSize(0)),
        (5, true) => make_piece("--swap-size=0", "", Says::SwapSize(0)),
        _ => make_piece("--trace", "", Says::Trace),
    }
}

// Pieces at the ends of what is accepted.
fn good(number: usize) -> Piece {
    match number {
        0 => make_piece("--workers", "1", Says::Workers(1)),
        1 => make_piece("--workers=064", "", Says::Workers(64)),
        2 => make_piece("--sched", "eager", Says::Sched(Policy::Eager)),
        3 => make_piece("--sched=ws", "", Says::Sched(Policy::Ws)),
        4 => make_piece("--node", "8", Says::Node(8)),
        5 => make_piece("--node=1099511627776", "", Says::Node(1 << 40)),
        6 => make_piece("--nodes", "1", Says::Nodes(1)),
        7 => make_piece("--nodes=16", "", Says::Nodes(16)),
        8 => make_piece("--swap", "swap file", Says::Swap("swap file")),
        9 => make_piece("--swap==x", "", Says::Swap("=x")),
        10 => make_piece("--swap-size", "1099511627776", Says::SwapSize(1 << 40)),
        11 => make_piece("--swap-size=0000000000000000000", "", Says::SwapSize(0)),
        12 => make_piece("--trace", "", Says::Trace),
        _ => make_piece("--summary", "", Says::Summary),
    }
}

// Pieces that are not accepted.
fn bad(number: usize) -> Piece {
    let (first, second) = match number {
        0 => ("--workers", "0"),
        1 => ("--workers=65", ""),
        2 => ("--workers=", ""),
        3 => ("--workers", "-1"),
        4 => ("--workers", "+1"),
        5 => ("--workers", "00000000000000000001"),
        6 => ("--worker", "1"),
        7 => ("--sched", "Eager"),
        8 => ("--sched=lws", ""),
        9 => ("--node", "7"),
        10 => ("--node=1099511627777", ""),
        11 => ("--nodes", "0"),
        12 => ("--nodes=17", ""),
        13 => ("--swap", "-x"),
        14 => ("--swap=-x", ""),
        15 => ("--swap=", ""),
        16 => ("--swap-size", "1099511627777"),
        17 => ("--swap-size=9999999999999999999", ""),
        18 => ("--trace=1", ""),
        19 => ("--help", ""),
        20 => ("--version", ""),
        21 => ("--", ""),
        22 => ("-w", ""),
        23 => ("trace", ""),
        24 => ("-trace", ""),
        25 => ("--tr", ""),
        26 => ("--summary=", ""),
        _ => ("--app", "product"),
    };
    make_piece(first, second, Says::Nothing)
}

// What is asked for, as the pieces say it.
#[derive(Drop)]
struct Model {
    workers: Option<u8>,
    policy: Option<Policy>,
    node: Option<u64>,
    nodes: Option<u8>,
    swap: Option<&'static str>,
    swap_size: Option<u64>,
    trace: bool,
    summary: bool,
    is_refused: bool,
}

impl Model {
    fn new() -> Model {
        Model {
            workers: None,
            policy: None,
            node: None,
            nodes: None,
            swap: None,
            swap_size: None,
            trace: false,
            summary: false,
            is_refused: false,
        }
    }

    // One more thing is said, which must be new.
    fn hear(&mut self, says: Says) {
        let again = match says {
            Says::Workers(n) => self.workers.replace(n).is_some(),
            Says::Sched(p) => self.policy.replace(p).is_some(),
            Says::Node(bytes) => self.node.replace(bytes).is_some(),
            Says::Nodes(n) => self.nodes.replace(n).is_some(),
            Says::Swap(path) => self.swap.replace(path).is_some(),
            Says::SwapSize(bytes) => self.swap_size.replace(bytes).is_some(),
            Says::Trace => {
                let again = self.trace;
                self.trace = true;
                again
            }
            Says::Summary => {
                let again = self.summary;
                self.summary = true;
                again
            }
            Says::Nothing => true,
        };
        self.is_refused = self.is_refused || again;
    }

    fn is_accepted(&self) -> bool {
        !self.is_refused && (self.nodes.is_none() || self.node.is_some())
    }

    fn has_path(&self, options: &Options) -> bool {
        match (&options.swap, self.swap) {
            (Some(path), Some(wanted)) => path.as_str() == wanted,
            (None, None) => true,
            _ => false,
        }
    }

    // Whether these are the options that are asked for.
    fn is(&self, options: &Options) -> bool {
        options.workers == self.workers
            && options.policy == self.policy
            && options.node == self.node
            && options.nodes == self.nodes
            && options.swap_size == self.swap_size
            && options.trace == self.trace
            && options.summary == self.summary
            && self.has_path(options)
    }

    // Whether this is the answer to the words.
    fn answers(&self, answer: &Result<Options, WordsRefusal>) -> bool {
        match answer {
            Ok(options) => self.is_accepted() && self.is(options),
            Err(refusal) => *refusal == WordsRefusal::Unaccepted && !self.is_accepted(),
        }
    }
}

// A command line and what the model makes of it.
#[derive(Drop)]
struct Line {
    words: Vec<String>,
    model: Model,
}

impl Line {
    fn new(alloc: Global) -> Line {
        Line {
            words: Vec::new(alloc),
            model: Model::new(),
        }
    }

    fn add(&mut self, alloc: Global, piece: Piece) -> Result<(), AllocError> {
        self.words.push(String::from_str(alloc, piece.first)?)?;
        if !piece.second.is_empty() {
            self.words.push(String::from_str(alloc, piece.second)?)?;
        }
        self.model.hear(piece.says);
        Ok(())
    }

    fn is_read(&self, alloc: Global) -> bool {
        let answer = read_words(alloc, self.words.as_slice());
        self.model.answers(&answer)
    }
}

// The seven settings in the order of this number, each said in a way that the number tells.
fn in_order(alloc: Global, order: usize) -> Result<Line, AllocError> {
    let mut line = Line::new(alloc);
    let mut left = vec![in alloc; 0, 1, 2, 3, 4, 5, 6]?;
    let mut code = order;
    for turn in 0..7u32 {
        let count = left.len().max(1);
        let at = code % count;
        code /= count;
        if at < left.len() {
            let number = left.swap_remove(at);
            line.add(alloc, setting(number, order >> turn & 1 == 1))?;
        }
    }
    Ok(line)
}

#[test]
fn all_orders_say_the_same(rt: HostRuntime) -> Result<(), Fail> {
    for half in 0..2_520 {
        let order = 2 * half + (half & 1);
        let line = in_order(rt.alloc(), order)?;
        assert!(rt; line.model.is_accepted());
        assert!(rt; line.is_read(rt.alloc()));
    }
    Ok(())
}

// The next number of a sequence.
fn next(seed: u64) -> u64 {
    seed.wrapping_mul(6_364_136_223_846_793_005)
        .wrapping_add(1_442_695_040_888_963_407)
}

// A line of up to nine pieces by chance, of which few are bad.
fn by_chance(alloc: Global, seed: u64) -> Result<Line, AllocError> {
    let mut line = Line::new(alloc);
    let mut seed = next(seed);
    let count = seed >> 33 & 7;
    for _ in 0..count + 1 {
        seed = next(seed);
        let number = (seed >> 40) as usize;
        let chosen = match seed >> 33 & 15 {
            0 => bad(number % 28),
            1..=7 => setting(number % 7, number & 8 == 8),
            _ => good(number % 14),
        };
        line.add(alloc, chosen)?;
    }
    Ok(line)
}

#[test]
fn lines_by_chance_are_read_as_the_model_reads_them(rt: HostRuntime) -> Result<(), Fail> {
    let mut accepted = 0u32;
    for seed in 0..2_500 {
        let line = by_chance(rt.alloc(), seed)?;
        assert!(rt; line.is_read(rt.alloc()));
        if line.model.is_accepted() {
            accepted = accepted.saturating_add(1);
        }
    }
    assert!(rt; accepted > 200);
    Ok(())
}

// Each bad piece, alone and behind a good one.
#[test]
fn bad_pieces_are_refused(rt: HostRuntime) -> Result<(), Fail> {
    let alloc = rt.alloc();
    for number in 0..28 {
        let mut line = Line::new(alloc);
        line.add(alloc, bad(number))?;
        assert!(rt; line.is_read(alloc));
        let mut line = Line::new(alloc);
        line.add(alloc, setting(6, false))?;
        line.add(alloc, bad(number))?;
        assert!(rt; line.is_read(alloc));
    }
    Ok(())
}

// A line of these pieces.
fn line_of(alloc: Global, pieces: &[Piece]) -> Result<Line, AllocError> {
    let mut line = Line::new(alloc);
    for piece in pieces {
        line.add(alloc, *piece)?;
    }
    Ok(line)
}

// The machine that such words make of a job with one node of 8 bytes.
fn machine_under(alloc: Global, words: &[String], policy: Policy) -> Result<Machine, WordsRefusal> {
    let options = read_words(alloc, words)?;
    let nodes = Sequence::of(vec![in alloc; 8; 1]?);
    let disks = Sequence::of(Vec::new(alloc));
    Ok(machine_of(alloc, &options, 2, nodes, policy, disks)?)
}

#[test]
fn words_win_over_the_job(rt: HostRuntime) -> Result<(), Fail> {
    let alloc = rt.alloc();
    let pieces = [setting(0, false), setting(2, true), setting(3, false)];
    let line = line_of(alloc, pieces.as_slice())?;
    let Ok(machine) = machine_under(alloc, line.words.as_slice(), Policy::Ws) else {
        panic!(rt; "no machine")
    };
    assert_eq!(rt; machine.workers, 7);
    assert!(rt; machine.nodes.items() == [4096, 4096, 4096].as_slice());
    assert!(rt; machine.policy == Policy::Ws);
    let Ok(machine) = machine_under(alloc, &[], Policy::Prio) else {
        panic!(rt; "no machine")
    };
    assert_eq!(rt; machine.workers, 2);
    assert!(rt; machine.nodes.items() == [8].as_slice());
    assert!(rt; machine.policy == Policy::Prio);
    Ok(())
}

#[test]
fn the_swap_is_as_wished(rt: HostRuntime) -> Result<(), Fail> {
    let alloc = rt.alloc();
    let pieces = [setting(4, false), setting(6, true), good(10)];
    let line = line_of(alloc, pieces.as_slice())?;
    let Ok(wish) = swap_wish(alloc, line.words.as_slice()) else {
        panic!(rt; "no memory")
    };
    assert!(rt; wish.path.is_some_and(|path| path.as_str() == "a=b"));
    assert_eq!(rt; wish.size, 1 << 40);
    let line = line_of(alloc, [setting(4, false), bad(0)].as_slice())?;
    let Ok(wish) = swap_wish(alloc, line.words.as_slice()) else {
        panic!(rt; "no memory")
    };
    assert!(rt; wish.path.is_none());
    assert_eq!(rt; wish.size, 67_108_864);
    Ok(())
}
