//! The laws on the definitions: each function does nothing, and its clauses are theorems.
ghost use Rattle.std.specs.Prelude.{◌≡◌, ◌≢◌, ◌⊎◌, ℕ, ◌+◌, ◌-◌, ◌^◌, ◌<◌, ◌≤◌, ◌||◌, List, [], ◌∷◌, ◌++◌, length, take, drop, codes, Bool, true, false, Option, Some, None, Err};
ghost use Rattle.lt_world.specs.Acts.{ending_of, deeds_of};
ghost use Rattle.lt_world.specs.declared.files.FileCall.{FileCall};
ghost use Rattle.lt_world.specs.declared.net.Address.{Address};
ghost use Rattle.lt_world.specs.declared.net.Ending.{Ending};
ghost use Rattle.lt_world.specs.declared.net.Ending.TheVariants as ending;
ghost use Rattle.lt_world.specs.Causes.{Rose};
ghost use Rattle.lt_world.specs.Disk.{Disk};
ghost use Rattle.lt_world.specs.Trace.{Act, Entry, Read, ReadEnd, Close, own as link_acts};
ghost use Rattle.http_head.specs.declared.framing.Framing.TheVariants as framed;
ghost use Rattle.http_head.specs.Options.{closes};
ghost use Rattle.http_head.specs.Head.{head_of};
ghost use Rattle.http_head.specs.declared.refusal.HeadRefusal.TheVariants as refusal;
ghost use Rattle.lt_http_body.specs.declared.state.State.{State};
ghost use Rattle.lt_http_body.specs.declared.body.BodyRefusal.TheVariants as refused;
ghost use Rattle.lt_http_body.specs.Standings.{answer_from};
ghost use Rattle.server_model.specs.Site.{Site};
ghost use Rattle.server_model.specs.Request.{Head, Request, Complete, Open, Declined, Refused, HasHead, front_of, headed, request_of, rest_of, is_complete, Limits};
ghost use Rattle.conf_value.specs.declared.block.Block.{Block};
ghost use Rattle.conditions.specs.Attributes.{Attributes};
ghost use Rattle.cond_cache.specs.Truths.{truth_of};
ghost use Rattle.settings.specs.Used.{values_where};
ghost use Rattle.server_model.specs.World.{World, Arrival, is_arrival, world_of, with_call};
ghost use Rattle.server_model.specs.Settings.{settings_on, settings_at, settings_from, truths_at, limit_for, is_reached};
ghost use Rattle.server_model.specs.Plan.{plan};
ghost use Rattle.server_model.specs.Comparing.{comparisons, comparison_limit, passes_of, passes_between};
ghost use Rattle.server_model.specs.Reply.{Reply, reply, is_accepted, continue_of};
ghost use Rattle.server_model.specs.Stream.{IsPrefix, is_followed, joined, Passed, left_after, replies_to, stream_of};
ghost use Rattle.server_model.specs.Deeds.{Deed, Ours, own, ours, told, deeds_in, AreDeeds};
ghost use Rattle.server_model.specs.Client.{CameFrom, input_limit, stream, IsServedRight};
ghost use Rattle.server_model.specs.Open.{open_clients};
ghost use Rattle.server_model.specs.Due.{connection_limit, offer_limit, IsKeptAlone, MayYield};
ghost use Rattle.server_model.specs.Held.{Serving};
ghost use Rattle.server_model.specs.Serves.{Serves};
ghost use Rattle.server_model.specs.Turns.{Seen, Grows, IsTurn};
ghost use Rattle.server_model.specs.Runs.{Told, IsRun};
ghost use Rattle.server_model.specs.Causes.{IsCause};

/// A server with no client serves where nothing happened yet and no file is open.
pub fn starts()
    ensures empty { (site : Site) (disk : Disk) → disk.calls ≡ [] → ((file : ℕ) → disk.table file ≡ None) → Serves disk (record { site = site; table = [] }) [] }
{}

/// Where a server serves, each client was served right: what it took is a prefix of its stream, and all of
/// it where it was closed clean.
pub fn served_right()
    ensures right { (disk : Disk) (server : Serving) (trace : List Entry) → Serves disk server trace → (link : ℕ) → IsServedRight (world_of server.site disk link (own link trace)) (own link trace) }
{}

/// In a run the tree stays, no call on the files is forgotten, and the count of those that failed never falls.
pub fn runs_grow()
    ensures grows { (site : Site) (before after : Told) → IsRun site before after → Grows before.seen after.seen }

    // A client is closed for a file's fault only where that count rose in the run.
    ensures faults { (site : Site) (before after : Told) → IsRun site before after → (client : ℕ) → ending_of (ours (own client after.trace)) ≡ Some ending.FileFault
        → (ending_of (ours (own client before.trace)) ≡ Some ending.FileFault) ⊎ Rose before.seen.faults after.seen.faults }

    // However a client is closed in the run, there is a cause for it.
    ensures endings { (site : Site) (before after : Told) → IsRun site before after → (client : ℕ) (e : Ending) → ending_of (ours (own client after.trace)) ≡ Some e
        → (ending_of (ours (own client before.trace)) ≡ Some e) ⊎ IsCause e (ours (own client after.trace)) (Rose before.seen.faults after.seen.faults) }
{}

/// A client's meaning depends on the acts of its own link alone.
pub fn client_alone()
    ensures acts { (client : ℕ) (trace : List Entry) → own client trace ≡ deeds_in (link_acts client trace) }

    // So how it ended and the bytes that it took are those which a report of the trace has on its line.
    ensures deeds { (client : ℕ) (trace : List Entry) → ours (own client trace) ≡ deeds_of (link_acts client trace) }
    ensures gained { (client : ℕ) (deeds : List Deed) (trace : List Entry) → AreDeeds deeds → own client (told client deeds trace) ≡ deeds ++ own client trace }
    ensures others { (other client : ℕ) (deeds : List Deed) (trace : List Entry) → other ≢ client → own other (told client deeds trace) ≡ own other trace }
{}

/// A request that is there stays so, whatever comes after it.
pub fn requests_stay()
    ensures complete { (limits : Limits) (bytes more : List ℕ) (head : Head) (content : List ℕ) → request_of limits bytes ≡ Complete head content → (request_of limits (bytes ++ more) ≡ Complete head content) × (rest_of limits (bytes ++ more) ≡ rest_of limits bytes ++ more) }
    ensures declined { (limits : Limits) (bytes more : List ℕ) (status : ℕ) (head : Head) → request_of limits bytes ≡ Declined status head → request_of limits (bytes ++ more) ≡ Declined status head }
    ensures refused { (limits : Limits) (bytes more : List ℕ) (status : ℕ) → request_of limits bytes ≡ Refused status → request_of limits (bytes ++ more) ≡ Refused status }

    // Where a body isn't whole, its head stays, and what comes is its body's.
    ensures open { (limits : Limits) (bytes more : List ℕ) (head : Head) → request_of limits bytes ≡ Open head
        → (rest : List ℕ) × (front_of bytes ≡ HasHead head rest) × (request_of limits (bytes ++ more) ≡ headed limits head (rest ++ more)) }
{}

/// Where the body of a request ends, and what it carries.
pub fn bodies_end()
    // Nothing follows a head without framing: what comes is the next request.
    ensures none { (limits : Limits) (bytes rest : List ℕ) (head : Head) → front_of bytes ≡ HasHead head rest → head.framing ≡ framed.None
        → (request_of limits bytes ≡ Complete head []) × (rest_of limits bytes ≡ rest) }

    // A stated length within the limit is the body's.
    ensures stated { (limits : Limits) (bytes rest : List ℕ) (head : Head) (n : ℕ) → front_of bytes ≡ HasHead head rest → head.framing ≡ framed.Length n → n ≤ limits head → n ≤ length rest
        → (request_of limits bytes ≡ Complete head (take n rest)) × (rest_of limits bytes ≡ drop n rest) }

    // Until so many bytes came, the body isn't whole.
    ensures short { (limits : Limits) (bytes rest : List ℕ) (head : Head) (n : ℕ) → front_of bytes ≡ HasHead head rest → head.framing ≡ framed.Length n → n ≤ limits head → length rest < n
        → request_of limits bytes ≡ Open head }

    // A longer one is declined with its head, where there is a limit.
    ensures large { (limits : Limits) (bytes rest : List ℕ) (head : Head) (n : ℕ) → limits head < 2 ^ 64 - 1 → front_of bytes ≡ HasHead head rest → head.framing ≡ framed.Length n → limits head < n
        → request_of limits bytes ≡ Declined 413 head }

    // However it is framed, a body carries no more than the limit.
    ensures within { (limits : Limits) (bytes : List ℕ) (head : Head) (content : List ℕ) → limits head < 2 ^ 64 - 1 → request_of limits bytes ≡ Complete head content → length content ≤ limits head }
{}

/// A client that waits to be told is told to go on, before the reply to its request.
pub fn clients_continue()
    // The reply to a request whose head was read begins so, and until its body is whole there is no more of it.
    ensures first { (world : World) (k : ℕ) (bytes rest : List ℕ) (head : Head) → front_of bytes ≡ HasHead head rest → IsPrefix (continue_of (limit_for world) head) (reply world k (request_of (limit_for world) bytes)).bytes }
    ensures waits { (world : World) (k : ℕ) (head : Head) → (reply world k (Open head)).bytes ≡ continue_of (limit_for world) head }

    // It is due where the client asks for it and a body follows that is accepted, and nowhere else.
    ensures asked { (limits : Limits) (head : Head) → head.expect ≡ true → is_accepted head.framing (limits head) ≡ true → continue_of limits head ≡ codes "HTTP/1.1 100 Continue" ++ 13 ∷ 10 ∷ 13 ∷ 10 ∷ [] }
    ensures unasked { (limits : Limits) (head : Head) → head.expect ≡ false → continue_of limits head ≡ [] }
    // HTTP/1.0 has no such reply.
    ensures old { (limits : Limits) (bytes rest : List ℕ) (head : Head) → front_of bytes ≡ HasHead head rest → head.minor ≡ 0 → continue_of limits head ≡ [] }
    ensures bodiless { (limits : Limits) (head : Head) → head.framing ≡ framed.None → continue_of limits head ≡ [] }
    ensures large { (limits : Limits) (head : Head) (n : ℕ) → head.framing ≡ framed.Length n → limits head < n → continue_of limits head ≡ [] }

    // What it was told stays, whatever comes.
    ensures stays { (world : World) (k : ℕ) (bytes more : List ℕ) → IsPrefix (reply world k (request_of (limit_for world) bytes)).bytes (reply world k (request_of (limit_for world) (bytes ++ more))).bytes }
{}

/// Requests are answered one by one, in the order in which they came.
pub fn replies_in_order()
    // After k replies the stream goes on with the reply to request k.
    ensures next { (world : World) (input before : List ℕ) (k : ℕ) → Passed k (replies_to world input) before
        → (rest : List Reply) × (stream_of world input ≡ before ++ joined (reply world k (request_of (limit_for world) (left_after (limit_for world) k input)) ∷ rest)) }

    // A reply that no further reply follows ends the stream.
    ensures last { (world : World) (input before : List ℕ) (k : ℕ) → Passed k (replies_to world input) before → is_followed (reply world k (request_of (limit_for world) (left_after (limit_for world) k input))) ≡ false
        → stream_of world input ≡ before ++ (reply world k (request_of (limit_for world) (left_after (limit_for world) k input))).bytes }

    // Each of the k requests was whole.
    ensures whole { (world : World) (input before : List ℕ) (k j : ℕ) → Passed k (replies_to world input) before → j < k → is_complete (request_of (limit_for world) (left_after (limit_for world) j input)) ≡ true }

    // The first k replies are these bytes and no others.
    ensures only { (world : World) (input a b : List ℕ) (k : ℕ) → Passed k (replies_to world input) a → Passed k (replies_to world input) b → a ≡ b }
{}

/// What holds for a request beside its plan.
pub fn settings_are_values()
    // The values of the configuration's keys, by the truths of its blocks.
    ensures values { (site : Site) (arrival : Option Arrival) (head : Option Head) → settings_at site arrival head ≡ settings_from (values_where site.blocks (truths_at site arrival head)) }
    ensures anew { (blocks : List Block) (a : Attributes) → settings_on blocks a ≡ settings_from (values_where blocks (truth_of blocks a)) }

    // Whatever is configured, a connection may send one request at least, and a body has a limit from 1 KiB to 4 MiB.
    ensures requests { (site : Site) (arrival : Option Arrival) (head : Option Head) → 1 ≤ (settings_at site arrival head).request_limit }
    ensures body { (site : Site) (arrival : Option Arrival) (head : Option Head) → (1024 ≤ (settings_at site arrival head).body_limit) × ((settings_at site arrival head).body_limit ≤ 4194304) }
    ensures requests_anew { (blocks : List Block) (a : Attributes) → 1 ≤ (settings_on blocks a).request_limit }
    ensures body_anew { (blocks : List Block) (a : Attributes) → (1024 ≤ (settings_on blocks a).body_limit) × ((settings_on blocks a).body_limit ≤ 4194304) }
{}

/// Which reply is the last of its connection.
pub fn connections_end()
    // The reply to a request is the last exactly where its head closes the connection, or no further request may come by the settings of its plan.
    ensures asked { (world : World) (k : ℕ) (bytes : List ℕ) (head : Head) (content : List ℕ) → request_of (limit_for world) bytes ≡ Complete head content → (reply world k (Complete head content)).last ≡ (closes head.minor head.fields || is_reached (plan world k head).settings.request_limit k) }
    ensures declined { (world : World) (k status : ℕ) (head : Head) → (reply world k (Declined status head)).last ≡ true }
    ensures refused { (world : World) (k status : ℕ) → (reply world k (Refused status)).last ≡ true }

    // No reply that another follows is that to the last request by the settings of its plan.
    ensures unreached { (world : World) (input before : List ℕ) (k j : ℕ) (head : Head) (content : List ℕ) → Passed k (replies_to world input) before → j < k
        → request_of (limit_for world) (left_after (limit_for world) j input) ≡ Complete head content → is_reached (plan world j head).settings.request_limit j ≡ false }

    // So fewer replies are followed than the greatest limit of a request.
    ensures limit { (world : World) (input before : List ℕ) (k most : ℕ) → 0 < most → ((j : ℕ) (head : Head) → (plan world j head).settings.request_limit ≤ most) → Passed k (replies_to world input) before → k < most }
{}

/// How many conditions a request has compared, at most.
pub fn comparisons_are_bounded()
    // However its target is rewritten.
    ensures within { (world : World) (request : Request) → comparisons world.site (passes_of world request) ≤ comparison_limit world.site }

    // The same for the request that is planned between two times, if one is.
    ensures between { (was is : World) (past now : List Act) → comparisons is.site (passes_between was past is now) ≤ comparison_limit is.site }
{}

/// No more clients are open at once than the limit, in a run that began with no more.
pub fn clients_limited()
    ensures within { (site : Site) (before after : Told) → IsRun site before after → open_clients before.trace ≤ connection_limit → open_clients after.trace ≤ connection_limit }
{}

/// What a client's own deeds tell of its world: where it came from, which no later act changes.
pub fn worlds_stay()
    ensures came { (site : Site) (disk : Disk) (client : ℕ) (peer local : Address) (deeds : List Deed) → CameFrom peer local (ours deeds) → (world_of site disk client deeds).side.arrival ≡ Some (record { peer = peer; local = local }) }
    ensures acts { (site : Site) (disk : Disk) (client : ℕ) (act : Act) (deeds : List Deed) → is_arrival act ≡ false → world_of site disk client (Ours act ∷ deeds) ≡ world_of site disk client deeds }
{}

/// What a client was to get begins what it is to get later.
pub fn stream_stays()
    ensures acts { (world : World) (act : Act) (acts : List Act) → IsPrefix (stream world acts) (stream world (act ∷ acts)) }

    // A call on the files changes the reply to its own request alone.
    ensures calls { (world : World) (what : FileCall) (k j : ℕ) (failed : Bool) (request : Request) → k ≢ j → reply (with_call what k failed world) j request ≡ reply world j request }

    // A call that comes as its request is planned, once all before it was taken, changes nothing that was taken.
    ensures planned { (world : World) (what : FileCall) (k : ℕ) (failed : Bool) (input output : List ℕ) → Passed k (replies_to world input) output → IsPrefix output (stream_of (with_call what k failed world) input) }
{}

/// The limits as numbers.
pub fn the_limits_are_numbers()
    ensures clients { connection_limit ≡ 256 }
    ensures input { input_limit ≡ 65536 }
    ensures offer { offer_limit ≡ 4096 }
{}

/// Where memory may run out for a client.
pub fn memory_is_wanted_rarely()
    // Not with a read that is kept in a spare buffer: the head of the current request isn't whole after it, or the request was whole before it.
    ensures reads { (site : Site) (spare : ℕ) (before after : Seen) (old now : List Entry) → IsTurn site spare before after old now → 0 < spare → (client asked : ℕ) (bytes : List ℕ)
        → own client now ≡ Ours (Close ending.NoMemory) ∷ Ours (Read asked bytes) ∷ own client old → IsKeptAlone (world_of site before.disk client (own client old)) (ours (own client old)) asked bytes → ⊥ }

    // Nor with the end of what a client sends.
    ensures ends { (site : Site) (spare : ℕ) (before after : Seen) (old now : List Entry) → IsTurn site spare before after old now → (client : ℕ)
        → own client now ≡ Ours (Close ending.NoMemory) ∷ Ours ReadEnd ∷ own client old → ⊥ }

    // And in the place of a clean end only where the client ended within a body.
    ensures clean { (site : Site) (spare : ℕ) (before after : Seen) (old now : List Entry) → IsTurn site spare before after old now → (client : ℕ) (deeds : List Deed)
        → own client now ≡ Ours (Close ending.NoMemory) ∷ deeds → (own client now ≡ own client old) ⊎ MayYield (world_of site after.disk client (own client now)) (ours deeds) }
{}

/// The statuses that stand for want of memory never come: by their bytes neither a head nor a body is refused for it.
pub fn memory_refuses_nothing()
    ensures head { (bytes : List ℕ) → head_of bytes ≢ Err refusal.NoMemory }
    ensures body { (s : State) → answer_from s ≢ Err refused.NoMemory }
{}
