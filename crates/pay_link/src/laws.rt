//! Laws of the definitions. The functions do nothing: their contracts are the laws.

ghost use Rattle.std.specs.Prelude.{◌≡◌, ◌≢◌, ◌*◌, ◌^◌, ◌<◌, ◌≤◌, ◌↔◌, ◌⊎◌, ℕ, List, length, sum};
ghost use Rattle.pay_frame.specs.Frame.{BodyFields, FrameFields, IsFrame};
ghost use Rattle.pay_frame.specs.OneFrame.{IsOneFrame};
ghost use Rattle.pay_link.specs.Checked.{CheckedFields, IsChecked, IsFor, bytes_of, checked_fields};
ghost use Rattle.pay_link.specs.Checked.{checked_from};
ghost use Rattle.pay_link.specs.Claims.{IsNonce, challenge_number, claim_number};
ghost use Rattle.pay_link.specs.Files.{IsLeastBad, KeysSaid, SaysKeys, genesis_in, genesis_said};
ghost use Rattle.pay_link.specs.Files.{keys_in_file, keys_judged, keys_said};
ghost use Rattle.pay_link.specs.Fronts.{turn};
ghost use Rattle.pay_link.specs.Genesis.{GenesisFields, IsGenesis, genesis_fault};
ghost use Rattle.pay_link.specs.Json.{Data, value_in};
ghost use Rattle.pay_link.specs.Keys.{IsPeer, KeyFields, kept_keys, key_for, keys_fault, no_key};
ghost use Rattle.pay_link.specs.Keys.{place_fault};
ghost use Rattle.pay_link.specs.Opening.{IsTagged, OpenedFields, Opens, judgement, opened_fields};
ghost use Rattle.pay_link.specs.Sealing.{sealed_frame};
ghost use Rattle.pay_link.specs.TestKeys.{test_keys_of};

use crate::genesis::GenesisFault;
use crate::keys::KeysFault;
use crate::limits::GREATEST_TOTAL;
use crate::opened::LinkFault;
use pay_frame::{Kind, MOST_MEMBERS};

/// States that a genesis has no fault exactly if its limits hold.
// promise: files
pub fn genesis_limits()
    ensures { (g : GenesisFields) → (genesis_fault g ≡ None) ↔ IsGenesis g }
{}

/// States that each fault of a genesis is reported exactly if its own cause holds and no earlier
/// one.
// promise: files
pub fn genesis_causes()
    ensures count { (g : GenesisFields) → (genesis_fault g ≡ Some GenesisFault.BadCount)
        ↔ ((g.members ≡ 0) ⊎ (MOST_MEMBERS < g.members)) }
    ensures faults { (g : GenesisFields) → (genesis_fault g ≡ Some GenesisFault.BadFaults)
        ↔ ((1 ≤ g.members) × (g.members ≤ MOST_MEMBERS) × (g.members ≤ 3 * g.faults)) }
    ensures opening { (g : GenesisFields) → (genesis_fault g ≡ Some GenesisFault.BadOpening)
        ↔ ((g.members ≤ MOST_MEMBERS) × (3 * g.faults < g.members)
        × (length g.opening ≢ g.members)) }
    ensures total { (g : GenesisFields) → (genesis_fault g ≡ Some GenesisFault.BadTotal)
        ↔ ((g.members ≤ MOST_MEMBERS) × (3 * g.faults < g.members) × (length g.opening ≡ g.members)
        × (GREATEST_TOTAL < sum g.opening)) }
{}

/// States the faults of a genesis file. It isn't JSON exactly if it has no value, and has a wrong
/// shape exactly if its value contains no genesis.
// promise: files
pub fn genesis_file_faults()
    ensures json { (bytes : List ℕ) → (genesis_in bytes ≡ Err GenesisFault.BadJson)
        ↔ (value_in bytes ≡ None) }
    ensures shape { (bytes : List ℕ) → (genesis_in bytes ≡ Err GenesisFault.BadShape)
        ↔ ((d : Data) × ((value_in bytes ≡ Some d) × (genesis_said d ≡ None))) }
{}

/// States that keys have no fault exactly if they belong to a member and are one for each member.
/// Each fault is reported exactly if its own cause holds and no earlier one.
// promise: files
pub fn keys_causes()
    ensures none { (members : ℕ) (k : KeyFields) → (keys_fault members k ≡ None)
        ↔ ((k.own < members) × (length k.keys ≡ members)) }
    ensures own { (members : ℕ) (k : KeyFields)
        → (keys_fault members k ≡ Some KeysFault.BadOwn)
        ↔ (members ≤ k.own) }
    ensures count { (members : ℕ) (k : KeyFields)
        → (keys_fault members k ≡ Some KeysFault.BadKeyCount)
        ↔ ((k.own < members) × (length k.keys ≢ members)) }
{}

/// States the faults of a keys file. It isn't JSON exactly if it has no value, and has a wrong
/// shape exactly if its value contains no keys. After the member's number and the count are tested,
/// the least place without a key is named. If there is none, the keys are those that the texts
/// encode.
// promise: files
pub fn keys_file_faults()
    ensures json { (members : ℕ) (bytes : List ℕ)
        → (keys_in_file members bytes ≡ Err KeysFault.BadJson)
        ↔ (value_in bytes ≡ None) }
    ensures shape { (members : ℕ) (bytes : List ℕ)
        → (keys_in_file members bytes ≡ Err KeysFault.BadShape)
        ↔ ((d : Data) × ((value_in bytes ≡ Some d) × (keys_said d ≡ None))) }
    ensures key { (members : ℕ) (said : KeysSaid) (place : ℕ) →
        (keys_judged members said ≡ Err (KeysFault.BadKey place))
        ↔ ((place_fault members said.own (length said.texts) ≡ None) × IsLeastBad said place) }
    ensures value { (members : ℕ) (said : KeysSaid) (k : KeyFields)
        → (keys_judged members said ≡ Ok k)
        ↔ ((place_fault members said.own (length said.texts) ≡ None) × SaysKeys said k) }
{}

/// States that the keys kept of a member are those for its peers, and none for itself.
// promise: files
pub fn peers_keys_are_kept()
    ensures members { (k : KeyFields) → length (kept_keys k).keys ≡ length k.keys }
    ensures peer { (k : KeyFields) (p : ℕ) → IsPeer k p
        → key_for (kept_keys k) p ≡ key_for k p }
    ensures own { (k : KeyFields) → key_for (kept_keys k) k.own ≡ no_key }
{}

/// States that a number is accepted exactly if it is the next one. A repeat is a number below the
/// next one, and a gap a number above it. Both name the next one.
// promise: numbers in turn
pub fn numbers_in_turn()
    ensures next { (next number : ℕ) → (turn next number ≡ Ok tt) ↔ (number ≡ next) }
    ensures repeat { (next number told : ℕ) → (turn next number ≡ Err (LinkFault.Repeat told))
        ↔ ((number < next) × (told ≡ next)) }
    ensures gap { (next number told : ℕ) → (turn next number ≡ Err (LinkFault.Gap told))
        ↔ ((next < number) × (told ≡ next)) }
{}

/// States that a frame is authenticated exactly if it is for the member, from a peer, about a
/// member's broadcast and has the right tag. It is then what was opened.
// promise: opening
pub fn judgement_opens()
    ensures { (k : KeyFields) (f : FrameFields) (o : OpenedFields) →
        (judgement k f ≡ Ok o) ↔ (Opens k f × (o ≡ opened_fields k f)) }
{}

/// States that each refusal comes exactly if its own cause holds and no earlier one. The test of
/// the next number isn't among them yet.
// promise: opening
pub fn judgement_refuses()
    ensures not_for_me { (k : KeyFields) (f : FrameFields) →
        (judgement k f ≡ Err LinkFault.NotForMe) ↔ (f.to ≢ k.own) }
    ensures unknown_sender { (k : KeyFields) (f : FrameFields) →
        (judgement k f ≡ Err LinkFault.UnknownSender) ↔ ((f.to ≡ k.own) × ¬ (IsPeer k f.from)) }
    ensures unknown_owner { (k : KeyFields) (f : FrameFields) →
        (judgement k f ≡ Err LinkFault.UnknownOwner)
        ↔ ((f.to ≡ k.own) × IsPeer k f.from × (length k.keys ≤ f.body.owner)) }
    ensures bad_tag { (k : KeyFields) (f : FrameFields) →
        (judgement k f ≡ Err LinkFault.BadTag)
        ↔ ((f.to ≡ k.own) × IsPeer k f.from × (f.body.owner < length k.keys)
        × ¬ (IsTagged (key_for k f.from) f)) }
    ensures no_repeat { (k : KeyFields) (f : FrameFields) (next : ℕ) →
        judgement k f ≢ Err (LinkFault.Repeat next) }
    ensures no_gap { (k : KeyFields) (f : FrameFields) (next : ℕ) →
        judgement k f ≢ Err (LinkFault.Gap next) }
{}

/// States that a frame which a member authenticated and owns is for that member. A frame that is
/// for a member is authenticated there again, and is then what was owned. Its bytes are that frame
/// and nothing else.
// promise: owned frames
pub fn owned_opens_again()
    ensures kept { (k : KeyFields) (f : FrameFields) (o : OpenedFields) → IsFrame f
        → f.body.kind ≢ Kind.Want → judgement k f ≡ Ok o
        → IsChecked (checked_fields o) × IsFor k (checked_fields o) }
    ensures opens_again { (k : KeyFields) (c : CheckedFields) → IsChecked c → IsFor k c
        → (judgement k c.frame ≡ Ok (opened_fields k c.frame))
        × (checked_fields (opened_fields k c.frame) ≡ c) }
    ensures one_frame { (c : CheckedFields) → IsChecked c → IsOneFrame (bytes_of c) c.frame }
{}

/// States that a frame for a member is what its peer encodes for it with that number and body. What
/// a peer encodes about a member's broadcast is for that member.
// promise: owned frames
pub fn sealed_by_peer()
    ensures kept { (k : KeyFields) (c : CheckedFields) → IsChecked c → IsFor k c
        → c ≡ checked_from k c.frame.from c.frame.number c.frame.body }
    ensures for_me { (k : KeyFields) (from number : ℕ) (body : BodyFields) → IsPeer k from
        → body.owner < length k.keys → IsFor k (checked_from k from number body) }
{}

/// States that what one of two members encodes for the other is authenticated there, if both have
/// one key for each other.
// promise: sealing
pub fn sealed_opens()
    ensures { (a b : KeyFields) (number : ℕ) (body : BodyFields) → IsPeer b a.own
        → key_for a b.own ≡ key_for b a.own → body.owner < length b.keys
        → let f = sealed_frame a b.own number body in judgement b f ≡ Ok (opened_fields b f) }
{}

/// States that the test keys of two members for each other are equal.
// promise: files
pub fn shared_test_keys()
    ensures { (members x y : ℕ) → x < members → y < members
        → key_for (test_keys_of members x) y ≡ key_for (test_keys_of members y) x }
{}

/// States that the numbers of places, of challenges and of claims are apart, and that a claim
/// answers one nonce alone.
// promise: comparing
pub fn claims_are_apart()
    ensures places { (nonce : ℕ) → 2 ^ 63 ≤ challenge_number nonce }
    ensures challenges { (nonce other next : ℕ) → IsNonce nonce
        → challenge_number nonce < claim_number other next }
    ensures claims { (nonce next : ℕ) → IsNonce nonce → claim_number nonce next < 2 ^ 64 }
    ensures one { (nonce other next later : ℕ)
        → claim_number nonce next ≡ claim_number other later → nonce ≡ other }
{}
