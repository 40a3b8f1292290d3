//! The plan of a tape with calls of an import within one another.

use replay_plan::plan;
use sample_inputs::module_without_parts;
use std::alloc::{AllocError, Global as Heap};
use std::test::Fail;
use trace_model::{Effect, Next, Origin, Segment, Segments, Tape};
use wasm_syntax::{Import, ImportKind, List, Module, Name};

/// How control reaches the host in each segment, and whether it leaves by a call of the module's function.
const SEGMENTS: [(Origin, bool); 8] = [
    (Origin::Begin, true),
    (Origin::Import(0), false),
    (Origin::Import(1), true),
    (Origin::Import(0), true),
    (Origin::Import(0), false),
    (Origin::Back, false),
    (Origin::Back, false),
    (Origin::Back, false),
];

/// The numbers of the segments of the host's own work.
const BEGIN: &[u32] = &[0, 7];

/// The numbers of the segments of each import's calls.
const IMPORTS: &[&[&[u32]]] = &[&[&[1], &[3, 5], &[4]], &[&[2, 6]]];

/// A segment whose only effect has the segment's number.
fn segment(alloc: Heap, number: u32, origin: Origin, calls: bool) -> Result<Segment, AllocError> {
    let mut effects = Vec::new(alloc);
    effects.push(Effect::Grow { pages: number })?;
    let next = if calls {
        Next::Call {
            func: 2,
            args: List::new(alloc),
        }
    } else {
        Next::Return { result: None }
    };
    Ok(Segment {
        origin,
        effects: List::from_vec(effects),
        next,
    })
}

fn tape(alloc: Heap) -> Result<Tape, AllocError> {
    let mut segments = Vec::new(alloc);
    for (number, (origin, calls)) in SEGMENTS.iter().enumerate() {
        segments.push(segment(alloc, number as u32, *origin, *calls)?)?;
    }
    Ok(Tape {
        segments: List::from_vec(segments),
    })
}

fn import(alloc: Heap) -> Result<Import, AllocError> {
    Ok(Import {
        module: Name::from_string(String::from_str(alloc, "env")?),
        name: Name::from_string(String::from_str(alloc, "f")?),
        kind: ImportKind::Func(0),
    })
}

/// A module with two imported functions.
fn importer(alloc: Heap) -> Result<Module, AllocError> {
    let mut imports = Vec::new(alloc);
    imports.push(import(alloc)?)?;
    imports.push(import(alloc)?)?;
    Ok(Module {
        imports: List::from_vec(imports),
        ..module_without_parts(alloc)
    })
}

/// Whether segments have these numbers.
fn are_numbered(segments: &[Segment], numbers: &[u32]) -> bool {
    if segments.len() != numbers.len() {
        return false;
    }
    for (segment, number) in segments.iter().zip(numbers) {
        match segment.effects.as_slice() {
            [Effect::Grow { pages }] if pages == number => {}
            _ => return false,
        }
    }
    true
}

/// Whether the calls of an import have the segments of these numbers.
fn are_calls(calls: &[Segments], wanted: &[&[u32]]) -> bool {
    if calls.len() != wanted.len() {
        return false;
    }
    for (call, numbers) in calls.iter().zip(wanted) {
        if !are_numbered(call.as_slice(), numbers) {
            return false;
        }
    }
    true
}

/// Whether the calls of each import have the segments of these numbers.
fn are_imports(imports: &[List<Segments>], wanted: &[&[&[u32]]]) -> bool {
    if imports.len() != wanted.len() {
        return false;
    }
    for (calls, numbers) in imports.iter().zip(wanted) {
        if !are_calls(calls.as_slice(), numbers) {
            return false;
        }
    }
    true
}

#[test]
fn calls_within_calls_have_their_own_segments(rt: HostRuntime) -> Result<(), Fail> {
    let module = importer(rt.alloc())?;
    let plan = plan(rt.alloc(), tape(rt.alloc())?, &module)?;
    assert!(rt; are_numbered(plan.begin.as_slice(), BEGIN));
    assert!(rt; are_imports(plan.imports.as_slice(), IMPORTS));
    Ok(())
}
