//! Laws of the formats. Each function does nothing: its contract is the law.

ghost use Rattle.std.specs.Prelude.{◌≡◌, ◌<◌, ◌≤◌, ◌^◌, ◌⊎◌, ℕ, Bool, length, List, [], ◌∷◌, ◌++◌, Some};
ghost use Rattle.audit_wire.specs.declared.grammar.Grammar.{Grammar};
ghost use Rattle.audit_wire.specs.declared.grammar.Grammar.TheVariants as grammar;
ghost use Rattle.audit_wire.specs.declared.request.Request.{Request};
ghost use Rattle.audit_base.specs.declared.limits.TheConstants.{HASH_LEN};
ghost use Rattle.audit_wire.specs.declared.limits.TheConstants.{LENGTH_BYTES, MAX_BODY, MAX_FRAME};
ghost use Rattle.audit_wire.specs.declared.limits.TheConstants.{ACKNOWLEDGEMENT_FRAME, COMMITMENT_FRAME};
ghost use Rattle.audit_wire.specs.declared.limits.TheConstants.{MAX_ENTRY_FRAME, MAX_INCREMENT_FRAME};
ghost use Rattle.audit_wire.specs.declared.limits.TheConstants.{MAX_MEMBERSHIP_FRAME, REFUSAL_FRAME, STATE_FRAME};
ghost use Rattle.audit_wire.specs.declared.limits.TheConstants.{MAX_PLACED_PAYLOAD, PLACE_FRAME, PLACED_FRAME};
ghost use Rattle.audit_wire.specs.declared.refusal.Refusal.{Refusal};
ghost use Rattle.audit_wire.specs.declared.reply.Reply.{Reply};
ghost use Rattle.audit_wire.specs.declared.reply.Reply.TheVariants as reply;
ghost use Rattle.audit_wire.specs.Reply.{reply_body, reply_frame, longest_frame, reply_in, IsWholeReply};
ghost use Rattle.std.specs.List.{flat_map, AllByRecursion};
ghost use Rattle.audit_base.specs.Bytes.{AreBytes};
ghost use Rattle.audit_wire.specs.Frame.{IsPartial};
ghost use Rattle.audit_wire.specs.Request.{request_body, request_in, request_by, IsRequest, IsRequestBy};
ghost use Rattle.audit_wire.specs.Request.{IsDaemonsAlone};
ghost use Rattle.audit_wire.specs.Stream.{Framed, rest_alone, in_front, framed_bodies, framed_by, continued};
ghost use Rattle.audit_wire.specs.Stream.{request_frame, IsReading};
ghost use Rattle.audit_wire.specs.declared.fed.Fed.{Fed};
ghost use Rattle.audit_wire.specs.Progress.{DecoderProgress, Feeding, reading, rest_of, is_spoiled, IsDecoderFed};
ghost use Rattle.audit_wire.specs.Progress.{taken_by, taken_but_one, requests_ahead, HasJustTaken, PutsBack, IsRun};
ghost use Rattle.audit_wire.specs.Progress.{bytes_taken, bodies_given, progress_after};

/// A stream can be read in only one way by a grammar: two readings of the same bytes have the same requests, the same
/// rest, and both or neither ends in a malformed place.
pub fn one_reading_of_a_stream()
    ensures read { (grammar : Grammar) (bytes : List ℕ) → AreBytes bytes
        → IsReading grammar bytes (framed_by grammar bytes) }
    ensures only { (grammar : Grammar) (bytes : List ℕ) (framed : Framed Request) → AreBytes bytes
        → IsReading grammar bytes framed → framed ≡ framed_by grammar bytes }
{}

/// Every request of a grammar has a frame that reads back as the request, whatever follows it. A body reads as a
/// request if and only if it is that request's body.
pub fn every_request_is_read_back()
    ensures frame { (grammar : Grammar) (request : Request) (more : List ℕ) → IsRequestBy grammar request
        → framed_by grammar (request_frame request ++ more) ≡ in_front request (framed_by grammar more) }
    ensures body { (grammar : Grammar) (request : Request) → IsRequestBy grammar request
        → request_by grammar (request_body request) ≡ Some request }
    ensures only { (grammar : Grammar) (body : List ℕ) (request : Request) → AreBytes body
        → request_by grammar body ≡ Some request → IsRequestBy grammar request × (body ≡ request_body request) }
{}

/// Each request of every session is one of a daemon's clients too, in the same bytes. The only further ones of theirs ask
/// for the state or for the place of a kind, or append at a place.
pub fn grammars_agree()
    ensures read { (body : List ℕ) (request : Request) → request_in body ≡ Some request
        → request_by grammar.Daemon body ≡ Some request }
    ensures only { (body : List ℕ) (asked : Request) → request_by grammar.Daemon body ≡ Some asked
        → IsDaemonsAlone asked ⊎ (request_in body ≡ Some asked) }
    ensures allowed { (request : Request) → IsRequest request → IsRequestBy grammar.Daemon request }
{}

/// More bytes leave the earlier requests unchanged, and are read together with the incomplete frame before them. The
/// start of a frame is such a rest.
pub fn more_bytes_keep_the_requests()
    ensures more { (grammar : Grammar) (bytes later : List ℕ)
        → framed_by grammar (bytes ++ later) ≡ continued grammar (framed_by grammar bytes) later }
    ensures rest { (grammar : Grammar) (bytes : List ℕ) → IsPartial bytes
        → framed_by grammar bytes ≡ rest_alone bytes }
{}

/// However a stream is cut into pieces, the bodies that a decoder returned and the bytes that it holds back depend
/// only on the bytes that it took.
pub fn every_cut_gives_one_reading()
    ensures { (run : List Feeding) → IsRun (reading []) run → framed_bodies (bytes_taken run)
        ≡ record {
          items = bodies_given run;
          malformed = is_spoiled (progress_after (reading []) run);
          rest = rest_of
              (progress_after (reading []) run);
        } }
{}

/// Every reply has a body that reads back as the reply, so different replies have different bytes. The length field of
/// a frame can hold the length of every body. All acknowledgements have bodies of one length, and so have all
/// refusals.
pub fn every_reply_is_read_back()
    ensures body { (given : Reply) → IsWholeReply given → reply_in (reply_body given) ≡ Some given }
    ensures size { (given : Reply) → IsWholeReply given → length (reply_body given) < 2 ^ 16 }
    ensures acknowledgement { (tag index count : ℕ) (root : List ℕ) → length root ≡ HASH_LEN
        → length (reply_body (reply.Acknowledgement tag index count root)) ≡ 53 }
    ensures refused { (tag : ℕ) (code : Refusal) → length (reply_body (reply.Refused tag code)) ≡ 6 }
{}

/// All acknowledgements have frames of one size, and so have all refusals, states, places of a kind, and replies to a
/// placed append that was appended. No frame is longer than the longest of its kind.
pub fn replies_have_their_sizes()
    ensures acknowledgement { (tag index count : ℕ) (root : List ℕ) → length root ≡ HASH_LEN
        → length (reply_frame (reply.Acknowledgement tag index count root)) ≡ ACKNOWLEDGEMENT_FRAME }
    ensures refused { (tag : ℕ) (code : Refusal) → length (reply_frame (reply.Refused tag code)) ≡ REFUSAL_FRAME }
    ensures state { (tag count : ℕ) (root : List ℕ) (end sectors generation version : ℕ) (closed : Bool)
        → length root ≡ HASH_LEN
        → length (reply_frame (reply.State tag count root end sectors generation version closed)) ≡ STATE_FRAME }
    ensures place { (tag number count : ℕ) → length (reply_frame (reply.Place tag number count)) ≡ PLACE_FRAME }
    ensures placed { (tag index count : ℕ) (root key : List ℕ) → length root ≡ HASH_LEN → length key ≡ HASH_LEN
        → length (reply_frame (reply.Placed tag index count root key)) ≡ PLACED_FRAME }
    ensures within { (given : Reply) → IsWholeReply given → length (reply_frame given) ≤ longest_frame given }
{}

/// The output of a session can be read as reply frames in only one way.
pub fn one_reading_of_replies()
    ensures first { (one other : Reply) (rest others : List ℕ) → IsWholeReply one → IsWholeReply other
        → reply_frame one ++ rest ≡ reply_frame other ++ others → (one ≡ other) × (rest ≡ others) }
    ensures all { (replies others : List Reply) → AllByRecursion IsWholeReply replies
        → AllByRecursion IsWholeReply others
        → flat_map reply_frame replies ≡ flat_map reply_frame others → replies ≡ others }
{}

/// Putting back the last byte of a piece has the same effect as feeding the piece without it. If feeding took a whole
/// piece, up to the end of a body or of a malformed length, the decoder is afterwards where feeding the rest of the
/// piece leaves it. For any piece it is where feeding all but the last of the taken bytes leaves it. So the same
/// requests are ahead in the stream.
pub fn a_byte_given_back_never_came()
    ensures whole { (old taken new : DecoderProgress) (piece : List ℕ) (byte : ℕ) (answer : Fed)
        → IsDecoderFed old (piece ++ byte ∷ []) answer taken
        → taken_by answer (piece ++ byte ∷ []) ≡ piece ++ byte ∷ [] → HasJustTaken taken → PutsBack taken new
        → IsDecoderFed old piece Fed.More new }
    ensures any { (old taken new : DecoderProgress) (piece : List ℕ) (answer : Fed)
        → IsDecoderFed old piece answer taken
        → HasJustTaken taken
        → PutsBack taken new → IsDecoderFed old (taken_but_one answer piece) Fed.More new }
    ensures ahead { (grammar : Grammar) (old taken new : DecoderProgress) (piece : List ℕ) (answer : Fed)
        (later : List ℕ)
        → IsDecoderFed old piece answer taken
        → HasJustTaken taken → PutsBack taken new
        → requests_ahead grammar old (taken_but_one answer piece ++ later) ≡ requests_ahead grammar new later }
{}

/// The limits of the frames, as numbers.
pub fn limits_are_these_numbers()
    ensures length { LENGTH_BYTES ≡ 2 }
    ensures body { MAX_BODY ≡ 32705 }
    ensures frame { MAX_FRAME ≡ 32707 }
    ensures acknowledgement { ACKNOWLEDGEMENT_FRAME ≡ 55 }
    ensures refusal { REFUSAL_FRAME ≡ 8 }
    ensures commitment { COMMITMENT_FRAME ≡ 47 }
    ensures state { STATE_FRAME ≡ 74 }
    ensures place { PLACE_FRAME ≡ 23 }
    ensures placed { PLACED_FRAME ≡ 87 }
    ensures placed_payload { MAX_PLACED_PAYLOAD ≡ 32688 }
    ensures entry { MAX_ENTRY_FRAME ≡ 32775 }
    ensures increment { MAX_INCREMENT_FRAME ≡ 808 }
    ensures membership { MAX_MEMBERSHIP_FRAME ≡ 33544 }
{}
