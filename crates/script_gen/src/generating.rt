//! A script of as many clients as are asked for.
ghost use Rattle.std.specs.Prelude.{◌≡◌, ◌≤◌, ◌++◌, ℕ, List, OnOk, IfOk};
ghost use Rattle.lt_script.specs.declared.script.ScriptFile.TheVariants.{Fill};
ghost use Rattle.lt_script.specs.Texts.{Spells};
ghost use Rattle.script_net.specs.Failing.{IsCalm};
ghost use Rattle.script_gen.specs.Draws.{after, drawn};
ghost use Rattle.script_gen.specs.Generated.{generated, fills, request, client, clients_below};

use lt_bytes::{List, NoMemory, Text, decimal};
use lt_script::{Name, Script, ScriptFile, Step};
use lt_world::Address;
use std::alloc::Global;

/// The most clients of a generated script.
pub const CLIENT_LIMIT: u64 = 10_000;

// The recurrence modulo 2^64: the factor, and what is added.
const FACTOR: u64 = 6_364_136_223_846_793_005;

const ADDED: u64 = 1_442_695_040_888_963_407;

// What the two highest bits of a draw count, and all but the fourteen highest.
const FILE_UNIT: u64 = 1 << 62;

const SIZE_UNIT: u64 = 1 << 50;

// Each client comes from here, to here.
const PEER: Address = Address {
    ip: [10, 0, 0, 5],
    port: 40_000,
};

const LOCAL: Address = Address {
    ip: [127, 0, 0, 1],
    port: 80,
};

/// The script of so many clients. Each asks for one of the files `/srv/f0` to `/srv/f3` and takes 1,200 pieces of its
/// reply, which are all of it, for each has 64 bytes at least.
#[tactic(auto, using(crate::proofs::Spelled::is_spelled, crate::proofs::Spelled::is_calm))]
pub fn generate(alloc: Global, clients: u64) -> Result<Script, NoMemory>
    requires { clients ≤ CLIENT_LIMIT }
    ensures script { IfOk result (λ script. script ≡ generated clients) }

    // It can be loaded, and lets no read and no write fail.
    ensures spelled { IfOk result (λ script. (bytes : List ℕ) × Spells bytes script) }
    ensures calm { IfOk result (λ script. IsCalm script.steps) }
{
    let files = fills(alloc)?;
    let steps = arrivals(alloc, clients)?;
    let faults = List::new(alloc);
    Ok(Script {
        files,
        faults,
        steps,
    })
}

// The four files.
fn fills(alloc: Global) -> Result<List<ScriptFile>, NoMemory>
    ensures { IfOk result (λ files. files ≡ fills) }
{
    let mut files = List::new(alloc);
    files.push(fill(alloc, b"/srv/f0", 0)?)?;
    files.push(fill(alloc, b"/srv/f1", 300)?)?;
    files.push(fill(alloc, b"/srv/f2", 5_000)?)?;
    files.push(fill(alloc, b"/srv/f3", 70_000)?)?;
    Ok(files)
}

fn fill(alloc: Global, path: &[u8], size: u64) -> Result<ScriptFile, NoMemory>
    ensures { IfOk result (λ file. file ≡ Fill path.now 0 size) }
{
    let path = Text::from_bytes(alloc, path)?;
    Ok(ScriptFile::Fill {
        path,
        time: 0,
        size,
    })
}

// What the clients do, one after another.
#[tactic(auto, using(crate::proofs::Ranges::clients_more, crate::proofs::Ranges::drawn_more))]
fn arrivals(alloc: Global, clients: u64) -> Result<List<Step>, NoMemory>
    requires { clients ≤ CLIENT_LIMIT }
    ensures { IfOk result (λ steps. steps ≡ clients_below clients clients) }
{
    let mut steps = List::new(alloc);
    let mut draw = clients;
    for number in 0..clients {
        draw = next_draw(draw);
        push_client(alloc, &mut steps, number as u32, draw)?;
    }
    Ok(steps)
}

fn next_draw(draw: u64) -> u64
    ensures { result ≡ after draw }
{
    draw.wrapping_mul(FACTOR).wrapping_add(ADDED)
}

// A client arrives, sends its request, and takes the reply.
fn push_client(
    alloc: Global,
    steps: &mut List<Step>,
    number: u32,
    draw: u64,
) -> Result<(), NoMemory>
    ensures { OnOk result (steps.new ≡ steps.old ++ client number draw) }
{
    let link = Name {
        gate: false,
        number,
    };
    let bytes = request(alloc, draw / FILE_UNIT)?;
    let size = 64 + (draw / SIZE_UNIT % 4_033) as u32;
    steps.push(Step::Accept {
        peer: PEER,
        local: LOCAL,
    })?;
    steps.push(Step::Bytes { link, bytes })?;
    steps.push(Step::Take {
        link,
        size,
        count: 1_200,
    })
}

// A request for the file of this number, the last of its connection.
fn request(alloc: Global, file: u64) -> Result<Text, NoMemory>
    ensures { IfOk result (λ text. text ≡ request file) }
{
    let mut text = Text::from_bytes(alloc, b"GET /f")?;
    text.push_all(decimal(file).bytes())?;
    text.push_all(b" HTTP/1.1\r\nHost: h\r\nConnection: close\r\n\r\n")?;
    Ok(text)
}
