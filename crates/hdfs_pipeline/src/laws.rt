//! Laws of write pipelines, over every list of events.

ghost use Rattle.std.specs.Prelude.{◌≡◌, ◌≢◌, ℕ, ◌++◌, ◌∷◌, List, [], length, false, Some, None, IsSome, if◌then◌else◌};
ghost use Rattle.hdfs_wire.specs.Outgoing.{Outgoing};
ghost use Rattle.hdfs_wire.specs.declared.ack.Ack.{Ack};
ghost use Rattle.hdfs_pipeline.specs.declared.event.Event.{Event};
ghost use Rattle.hdfs_pipeline.specs.declared.event.Event.TheVariants.{Push, Acked};
ghost use Rattle.hdfs_pipeline.specs.Pipelines.{Pipeline, Done, Bad, acked_of, after, ended, has_room, is_push, pending_of, run_of};
ghost use Rattle.hdfs_pipeline.specs.Pushed.{IsLastBehind, entered};

/// No packet is lost, doubled or moved: those that came in are, in their order, the acknowledged ones and behind them those
/// that wait.
pub fn no_packet_is_lost()
    ensures { (window nodes : ℕ) (events : List Event) → let run = run_of window nodes events in
        entered window nodes events ≡ acked_of run ++ pending_of run }
{}

/// A pipeline is done only once all its packets are acknowledged, where the last packet of the block was pushed last.
pub fn nothing_waits_once_done()
    ensures { (window nodes : ℕ) (events : List Event) → let run = run_of window nodes events in
        IsLastBehind run.pushed → run.end ≡ Some Done → pending_of run ≡ [] }
{}

/// An acknowledgement with a wrong number of statuses is bad, whatever they say.
pub fn wrong_numbers_are_bad()
    ensures { (p : Pipeline) (ack : Ack) → p.end ≡ None → length ack.replies ≢ p.nodes
        → after p (Acked ack) ≡ ended p (Bad ack.seqno) }
{}

/// After an end nothing happens, but that a push that finds room puts its packet behind the others.
pub fn ends_are_final()
    ensures others { (p : Pipeline) (event : Event) → IsSome p.end → is_push event ≡ false → after p event ≡ p }
    ensures pushes { (p : Pipeline) (packet : Outgoing) → IsSome p.end
        → after p (Push packet) ≡ (if has_room p then record p { pushed = p.pushed ++ packet ∷ [] } else p) }
{}

/// A push that finds no room does nothing.
pub fn full_pushes_do_nothing()
    ensures { (p : Pipeline) (packet : Outgoing) → has_room p ≡ false → after p (Push packet) ≡ p }
{}
