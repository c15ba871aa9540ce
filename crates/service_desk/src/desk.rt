ghost use Rattle.std.specs.Prelude.{◌≡◌};
ghost use Rattle.service_desk.specs.Views.{View, IsView};
ghost use Rattle.service_desk.specs.Places.{Told};

use kr_base::ConnId;

/// Where a connection meets the service.
pub trait Desk {
    /// What is known of the desk: its connection, the service's state as far as the desk has seen it,
    /// and how the desk behaves.
    ghost told: { Self → Told };

    /// The views of the service's history that the desk may have. It is a relation, since a desk need
    /// not keep what it has seen.
    ghost has_seen: { Self → View → Type 0 };

    /// The connection that the desk belongs to. The call takes no memory.
    fn conn(&self) -> ConnId
        ensures { result ≡ (told self.now).conn };

    /// A desk has a view, even if it has seen no event.
    ghost has_view: { (desk : Self) → (view : View) × has_seen desk view };

    /// The events of a view are legal from its start and lead to the state that the desk has seen;
    /// with those before the start, they are as many as the desk has counted.
    ghost views_lead: { (desk : Self) (view : View) → has_seen desk view
        → IsView (told desk).state (told desk).count view };
}
