ghost use Rattle.std.specs.Prelude.{◌≡◌, ℕ, ◌^◌, ◌<◌, ◌++◌, List, [], ◌∷◌, Bool, false, IsTrue};
ghost use Rattle.std.specs.List.{concat};
ghost use Rattle.dbus_auth.specs.Answers.{ok_line};
ghost use Rattle.dbus_auth.specs.Handshake as server;
ghost use Rattle.dbus_auth.specs.Conversation as served;
ghost use Rattle.dbus_auth_client.specs.Openings.{auth_line, opening, begin_line};
ghost use Rattle.dbus_auth_client.specs.Hearing.{is_guid, opened, talk, continued, in_pieces};

/// A law: what the client hears doesn't depend on how the server's bytes were cut into pieces.
pub fn client_cut_anywhere()
    ensures more { (asked : Bool) (bytes more : List ℕ) →
        talk asked (bytes ++ more) ≡ continued (talk asked bytes) more }
    ensures pieces { (asked : Bool) (pieces : List (List ℕ)) →
        talk asked (concat pieces) ≡ in_pieces (talk asked []) pieces }
{}

/// A law: the server's half accepts what the client's half sends, and the client's half hears it,
/// however the bytes of both are cut. To the opening, in any pieces, the server answers `OK` and
/// nothing else; to `OK`, in any pieces, the client answers `BEGIN`; and after the opening and
/// `BEGIN`, in any pieces, the server's half is open, with the bytes after `BEGIN` as its rest.
pub fn our_server_accepts()
    ensures offered { (uid : ℕ) (guid : List ℕ) (pieces : List (List ℕ)) → uid < 2 ^ 32
        → concat pieces ≡ auth_line uid
        → (served.in_pieces (server.handshake uid guid (0 ∷ [])) pieces).answers
        ≡ ok_line guid ∷ [] }
    ensures accepted { (guid rest : List ℕ) (pieces : List (List ℕ)) → IsTrue (is_guid guid)
        → concat pieces ≡ ok_line guid ++ rest
        → in_pieces (talk false []) pieces
        ≡ record { said = begin_line ∷ []; end = opened guid rest } }
    ensures begun { (uid : ℕ) (guid rest : List ℕ) (pieces : List (List ℕ)) → uid < 2 ^ 32
        → concat pieces ≡ auth_line uid ++ (begin_line ++ rest)
        → served.in_pieces (server.handshake uid guid (0 ∷ [])) pieces
        ≡ record { answers = ok_line guid ∷ []; end = server.opened rest } }
    ensures sent { (uid : ℕ) → opening uid ≡ 0 ∷ auth_line uid }
{}
