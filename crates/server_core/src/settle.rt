//! What follows once bytes came or were taken: a request that is there by then is answered.
ghost use Rattle.std.specs.Prelude.{◌≡◌, ◌≢◌, ◌+◌, ◌≤◌, length, Some, None, true};
ghost use Rattle.buffer_pool.specs.Kept.{Kept, HeldWithin};
ghost use Rattle.cond_cache.specs.Kept.{conditions_in};
ghost use Rattle.server_model.specs.Comparing.{comparisons};
ghost use Rattle.server_model.specs.Request.{Head};
ghost use Rattle.server_model.specs.Held.{arrival_of};
ghost use Rattle.server_model.specs.Files.{Fits};
ghost use Rattle.server_model.specs.Settings.{settings_at};
ghost use Rattle.server_model.specs.Settling.{SettlesTo};
ghost use Rattle.server_model.specs.Steps.{wants_memory};
ghost use Rattle.connection.specs.Connection.{head_at};
ghost use Rattle.connection.specs.Stages.{stage_of, is_asking};
ghost use Rattle.connection.specs.declared.stage.Stage.TheVariants as next;
ghost use Rattle.request_plan.specs.Form.{refused_form};
ghost use Rattle.request_plan.specs.Kept.{IsFresh, IsRightFor, asked_of};
ghost use Rattle.server_core.specs.Compared.{wants};
ghost use Rattle.server_core.specs.Passes.{passes_at, passes_on, passes_after};
ghost use Rattle.server_core.specs.Sending.{refusal_items};
ghost use Rattle.server_core.specs.Steps.{is_idle, IsFree, IsAdvanced, WaitsOn, GivenBy};

use crate::lending::arrival;
use crate::reply::{REPLY_FILL, refuse, serve};
use chunkqueue::Store;
use conditions::Steps;
use connection::{Conn, INPUT_LIMIT, Stage};
use lt_world::{Ending, Files};
use request_plan::{Chosen, Form, Planner};
use std::sync::ledger::Ledger;

/// Bytes that are copied into buffers for what follows a read or a write, at most: what is held of the input, once, what is
/// told of a body that is waited for, and a reply.
pub(crate) const SETTLE_FILL: usize = INPUT_LIMIT + 25 + REPLY_FILL;

/// Takes the next step that the bytes which came allow, and answers the request that is there then. Answers how the client
/// is to be closed, where it is.
pub(crate) fn settle<F: Files, L: Ledger>(
    conn: &mut Conn,
    planner: &mut Planner<'_>,
    store: &mut Store,
    files: &mut F,
    steps: &mut Steps<L>,
) -> Option<Ending>
    requires counted { HeldWithin store.old (length conn.old.numbers) }
    requires idle { is_idle conn.old.held.stage ≡ true }
    requires free { IsFree conn.old.held }
    requires fits { F.tells → Fits (F.disk files.old).table conn.old.held }
    ensures settles { SettlesTo (wants_memory conn.old.held) planner.old.site conn.old.held conn.new.held result F.tells (F.disk files.old) (F.disk files.new) }
    ensures link { conn.new.held.link ≡ conn.old.held.link }
    ensures waits { WaitsOn result conn.new.held }
    ensures filled { store.new.filled ≤ store.old.filled + SETTLE_FILL }
    ensures kept { Kept store.old conn.old.numbers store.new conn.new.numbers }
    ensures compares { steps.new ≤ steps.old + comparisons planner.old.site (passes_after planner.old.site conn.old.held) + wants result }
    ensures site { planner.new.site ≡ planner.old.site }
    ensures reads { F.reads files.new ≡ F.reads files.old }
    ensures later { F.later files.old files.new }
{
    // Conditions are compared anew in each turn.
    planner.begin();
    let Ok(stage) = conn.advance(store) else {
        return Some(Ending::NoMemory);
    };
    match stage {
        Stage::Head => read_body(conn, planner, store, files, steps),
        _ => go_on(conn, planner, store, files, steps, stage),
    }
}

// The head of a request is there: as much of its body is read as came.
fn read_body<F: Files, L: Ledger>(
    conn: &mut Conn,
    planner: &mut Planner<'_>,
    store: &mut Store,
    files: &mut F,
    steps: &mut Steps<L>,
) -> Option<Ending>
    requires counted { HeldWithin store.old (length conn.old.numbers) }
    requires heading { stage_of conn.old.held ≡ next.Head }
    requires free { IsFree conn.old.held }
    requires fits { F.tells → Fits (F.disk files.old).table conn.old.held }
    requires fresh { IsFresh planner.old }
    ensures settles { SettlesTo true planner.old.site conn.old.held conn.new.held result F.tells (F.disk files.old) (F.disk files.new) }
    ensures link { conn.new.held.link ≡ conn.old.held.link }
    ensures waits { WaitsOn result conn.new.held }
    ensures filled { store.new.filled ≤ store.old.filled + length conn.old.held.input + 25 + REPLY_FILL }
    ensures kept { Kept store.old conn.old.numbers store.new conn.new.numbers }
    ensures compares { steps.new ≤ steps.old + comparisons planner.old.site (passes_on planner.old.site conn.old.held) + wants result }
    ensures site { planner.new.site ≡ planner.old.site }
    ensures reads { F.reads files.new ≡ F.reads files.old }
    ensures later { F.later files.old files.new }
{
    let Some(request) = conn.request() else {
        return None;
    };
    let Ok(limit) = planner.body_limit(arrival(conn), request, steps) else {
        return Some(Ending::NoMemory);
    };
    let Ok(()) = conn.accept_body(store, limit) else {
        return Some(Ending::NoMemory);
    };
    let Ok(stage) = conn.advance(store) else {
        return Some(Ending::NoMemory);
    };
    go_on(conn, planner, store, files, steps, stage)
}

// Does what the bytes that came call for.
fn go_on<F: Files, L: Ledger>(
    conn: &mut Conn,
    planner: &mut Planner<'_>,
    store: &mut Store,
    files: &mut F,
    steps: &mut Steps<L>,
    stage: Stage,
) -> Option<Ending>
    requires counted { HeldWithin store.old (length conn.old.numbers) }
    requires advanced { IsAdvanced conn.old.held }
    requires stage { stage ≡ stage_of conn.old.held }
    requires read { stage ≢ next.Head }
    requires fits { F.tells → Fits (F.disk files.old).table conn.old.held }
    requires right { (head : Head) → head_at conn.old.held.stage ≡ Some head → IsRightFor (arrival_of conn.old.held) head planner.old }
    requires few { asked_of planner.old ≤ conditions_in planner.old.site.blocks }
    // Memory may be wanted only for an answer.
    ensures settles { SettlesTo (is_asking conn.old.held.stage) planner.old.site conn.old.held conn.new.held result F.tells (F.disk files.old) (F.disk files.new) }
    ensures link { conn.new.held.link ≡ conn.old.held.link }
    ensures waits { WaitsOn result conn.new.held }
    ensures filled { store.new.filled ≤ store.old.filled + REPLY_FILL }
    ensures kept { Kept store.old conn.old.numbers store.new conn.new.numbers }
    ensures compares { steps.new + asked_of planner.old ≤ steps.old + comparisons planner.old.site (passes_at planner.old.site (Some (arrival_of conn.old.held)) conn.old.held.stage) + wants result }
    ensures site { planner.new.site ≡ planner.old.site }
    ensures reads { F.reads files.new ≡ F.reads files.old }
    ensures later { F.later files.old files.new }
{
    match stage {
        Stage::Waiting => None,
        Stage::Writing => None,
        // Its body was accepted by now.
        Stage::Head => None,
        Stage::Finished => Some(Ending::Clean),
        Stage::Refused(status) => decline(conn, planner, store, steps, status),
        Stage::Whole => respond(conn, planner, store, files, steps),
    }
}

// Answers a request whose head or body is refused.
fn decline<L: Ledger>(
    conn: &mut Conn,
    planner: &mut Planner<'_>,
    store: &mut Store,
    steps: &mut Steps<L>,
    status: u16,
) -> Option<Ending>
    requires counted { HeldWithin store.old (length conn.old.numbers) }
    requires refused { stage_of conn.old.held ≡ next.Refused status }
    requires file { conn.old.held.file ≡ None }
    requires right { (head : Head) → head_at conn.old.held.stage ≡ Some head → IsRightFor (arrival_of conn.old.held) head planner.old }
    requires few { asked_of planner.old ≤ conditions_in planner.old.site.blocks }
    ensures given { GivenBy result conn.old.held conn.new.held (refusal_items (settings_at planner.old.site (Some (arrival_of conn.old.held)) (head_at conn.old.held.stage)).tag (refused_form (head_at conn.old.held.stage)) status) None true }
    ensures link { conn.new.held.link ≡ conn.old.held.link }
    ensures waits { WaitsOn result conn.new.held }
    ensures filled { store.new.filled ≤ store.old.filled + REPLY_FILL }
    ensures kept { Kept store.old conn.old.numbers store.new conn.new.numbers }
    ensures compares { steps.new + asked_of planner.old ≤ steps.old + conditions_in planner.old.site.blocks + wants result }
    ensures site { planner.new.site ≡ planner.old.site }
{
    let form = Form::of_refused(conn.request());
    let Ok(settings) = planner.settings_for(arrival(conn), conn.request(), steps) else {
        return Some(Ending::NoMemory);
    };
    refuse(conn, planner, store, settings.server_tag, form, status)
}

// Answers the request that is there.
fn respond<F: Files, L: Ledger>(
    conn: &mut Conn,
    planner: &mut Planner<'_>,
    store: &mut Store,
    files: &mut F,
    steps: &mut Steps<L>,
) -> Option<Ending>
    requires counted { HeldWithin store.old (length conn.old.numbers) }
    requires whole { stage_of conn.old.held ≡ next.Whole }
    requires file { conn.old.held.file ≡ None }
    requires fits { F.tells → Fits (F.disk files.old).table conn.old.held }
    requires right { (head : Head) → head_at conn.old.held.stage ≡ Some head → IsRightFor (arrival_of conn.old.held) head planner.old }
    requires few { asked_of planner.old ≤ conditions_in planner.old.site.blocks }
    ensures settles { SettlesTo true planner.old.site conn.old.held conn.new.held result F.tells (F.disk files.old) (F.disk files.new) }
    ensures link { conn.new.held.link ≡ conn.old.held.link }
    ensures waits { WaitsOn result conn.new.held }
    ensures filled { store.new.filled ≤ store.old.filled + REPLY_FILL }
    ensures kept { Kept store.old conn.old.numbers store.new conn.new.numbers }
    ensures compares { steps.new + asked_of planner.old ≤ steps.old + comparisons planner.old.site (passes_at planner.old.site (Some (arrival_of conn.old.held)) conn.old.held.stage) + wants result }
    ensures site { planner.new.site ≡ planner.old.site }
    ensures reads { F.reads files.new ≡ F.reads files.old }
    ensures later { F.later files.old files.new }
{
    let owner = conn.owner();
    let Some(request) = conn.request() else {
        return None;
    };
    let Ok(chosen) = planner.plan(arrival(conn), request, files, owner, steps) else {
        return Some(Ending::NoMemory);
    };
    let Chosen {
        settings,
        status,
        fields,
        content,
    } = chosen;
    let limit = settings.server_max_keep_alive_requests;
    let form = Form::of(request, owner.request, limit);
    serve(
        conn,
        planner,
        store,
        files,
        settings.server_tag,
        form,
        status,
        &fields,
        content,
    )
}
