//! Laws of states and their text: each is the contract of a function that does nothing.
ghost use Rattle.std.specs.Prelude.{◌≡◌, Ok};
ghost use Rattle.hub_path.specs.Path.{Path};
ghost use Rattle.hub_tree.specs.Tree.{Replica, Archive};
ghost use Rattle.hub_state.specs.Readable.{IsReadable};
ghost use Rattle.hub_state.specs.Reading.{state_reading};
ghost use Rattle.hub_state.specs.State.{State, IsState, archive_at, HaveSameArchives, HaveSameReplicas, IfPlaces, IsPut, IsReplicaPut};
ghost use Rattle.hub_state.specs.Writing.{state_text};

/// The text of a state within the limits reads as the same state.
pub fn what_is_written_reads_back()
    ensures { (S : State) → IsState S → IsReadable S → state_reading (state_text S) ≡ Ok S }
{}

/// A replica that is put at a root is there. The replicas of other roots stay.
pub fn replicas_are_by_root()
    ensures { (S : State) (r q : Path) (m : Replica) → IfPlaces r q (IsReplicaPut S r m q) }
{}

/// An archive that is put at two roots is there, in either order of the roots. The archives of other pairs stay.
pub fn archives_are_by_unordered_pair()
    ensures turned { (S : State) (r s : Path) → archive_at S r s ≡ archive_at S s r }
    ensures put { (S : State) (r s p q : Path) (a : Archive)
        → IfPlaces r s (IfPlaces p q (IsPut S r s a p q)) }
{}

/// States with the same replica at each root and the same archive at each pair of roots are equal.
pub fn states_are_their_replicas_and_archives()
    ensures { (S T : State) → IsState S → IsState T → HaveSameReplicas S T → HaveSameArchives S T
        → S ≡ T }
{}
