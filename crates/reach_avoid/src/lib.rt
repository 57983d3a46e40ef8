// Drive against draught on one axis: which starts can be brought home whatever the draught does. One table of a byte for each start, the fewest turns, is
// filled in place, turn by turn; 255 is none.
//
// A state is counted from the corner of its ranges: x = angle + 64, y = rate + 8, and its entry is number x * 17 + y. Choices are counted from the lowest: i is
// the drive's + 2, j the draught's + 1.
#![tactic(auto)]

ghost use Rattle.std.specs.Prelude.{◌≡◌, true, cond, ◌&&◌, suc, ◌≤◌, ◌<◌, T, nat_abs, ◌-ℤ◌, Ok, Err, MatchOption};
ghost use Rattle.std.specs.Int.Signed.{le_z, non_neg};
ghost use Rattle.std.specs.Int.{w64};
ghost use Rattle.std.proofs.Common.{SFits};
ghost use Rattle.reach_avoid.specs.Game.{answer, choice, fewest};
ghost use Rattle.reach_avoid.specs.Room as Room;
ghost use Rattle.reach_avoid.specs.Room.{room, next, state_at, telling, replying, out_of_range};
ghost use Rattle.reach_avoid.specs.Promises.{OutcomePromise, ReplyPromise};
ghost use Rattle.reach_avoid.specs.TableInner.{entry_of, below, stepped, Holds, Start, turns_at_value};

// What is told of a start: it is home, or forced home (the fewest turns, the lowest first choice), or held off for 64 turns.
#[derive(Clone, Copy)]
pub enum StartOutcome {
    Home,
    Forced(usize, i64),
    HeldOff,
}

// Refusal 27: what was asked is outside the ranges.
#[derive(Clone, Copy)]
pub struct OutOfRange;

// The entry of the state after the choices i and j at entry k; 255 outside the ranges. r is the new rate + 11, a the new angle + 75.
fn after(t: &[u8; 2193], k: usize, i: usize, j: usize) -> u8
    requires { (k < 2193) × (i < 5) × (j < 3) }
    ensures { result ≡ entry_of t.now (next (state_at k) (room.drive i) (room.draught j)) }
{
    let x = k / 17;
    let y = k % 17;
    let r = y + i + j;
    let a = x + r;
    if r < 3 || 19 < r || a < 11 || 139 < a {
        return 255;
    }
    t[(a - 11) * 17 + (r - 3)]
}

// The lowest reply to choice i at entry k after which home is not forced in fewer than n turns.
fn lowest_reply(t: &[u8; 2193], k: usize, i: usize, n: u8) -> Option<usize>
    requires { (k < 2193) × (i < 5) }
    ensures { let lowest = answer room (below t.now n) (state_at k) (room.drive i) in
        MatchOption result (lowest ≡ 3) (λ j. (j < 3) × (j ≡ lowest)) }
{
    for j in 0..3 {
        if n <= after(t, k, i, j) {
            return Some(j);
        }
    }
    None
}

// The lowest choice at entry k to which there is no such reply.
fn lowest_choice(t: &[u8; 2193], k: usize, n: u8) -> Option<usize>
    requires { k < 2193 }
    ensures { let lowest = choice room (below t.now n) (state_at k) in
        MatchOption result (lowest ≡ 5) (λ i. (i < 5) × (i ≡ lowest)) }
{
    for i in 0..5 {
        if lowest_reply(t, k, i, n).is_none() {
            return Some(i);
        }
    }
    None
}

// Entry k before any turn.
fn first_entry(k: usize) -> u8
    requires { k < 2193 }
    ensures { result ≡ turns_at_value 0 k }
{
    if (60..=68).contains(&(k / 17)) && (6..=10).contains(&(k % 17)) {
        0
    } else {
        255
    }
}

// Entry k after one more turn, the nth.
fn next_entry(t: &[u8; 2193], k: usize, n: u8) -> u8
    requires { k < 2193 }
    ensures { result ≡ stepped t.now k n }
{
    let e = t[k];
    if e == 255 && lowest_choice(t, k, n).is_some() {
        n
    } else {
        e
    }
}

// The table before any turn.
fn begin() -> [u8; 2193]
    ensures { Holds 0 result }
{
    let mut t = [255u8; 2193];
    for k in 0..2193 {
        t[k] = first_entry(k);
    }
    t
}

// One more turn than m, in place: an entry up to m is the same before and after its own step.
fn sweep(t: &mut [u8; 2193], m: u8)
    requires { (m < 64) × Holds m t.old }
    ensures { Holds (suc m) t.new }
{
    for k in 0..2193 {
        t[k] = next_entry(t, k, m + 1);
    }
}

// The whole table.
fn fill() -> [u8; 2193]
    ensures { Holds 64 result }
{
    let mut t = begin();
    for m in 0..64 {
        sweep(&mut t, m);
    }
    t
}

// z counted from low; refused where it is not from low to high.
fn counted(z: i64, low: i64, high: i64) -> Result<usize, OutOfRange>
    requires { (le_z low z && le_z z high) ≡ true → SFits w64 (z -ℤ low) × T (non_neg (z -ℤ low)) }
    ensures { result ≡ cond (le_z low z && le_z z high) (Ok (nat_abs (z -ℤ low))) (Err out_of_range) }
{
    if z < low || high < z {
        return Err(OutOfRange);
    }
    Ok((z - low) as usize)
}

// The entry of a start.
fn entry_of(angle: i64, rate: i64) -> Result<usize, OutOfRange>
    ensures { Start (record { angle = angle; rate = rate }) result }
{
    let x = counted(angle, -64, 64)?;
    let y = counted(rate, -8, 8)?;
    Ok(x * 17 + y)
}

// What the table tells of the start at entry k.
fn tell(t: &[u8; 2193], k: usize) -> StartOutcome
    requires { (k < 2193) × Holds 64 t.now }
    ensures { result ≡ telling (fewest room 255 64 (state_at k)) (state_at k) }
{
    let n = t[k];
    if n == 0 {
        return StartOutcome::Home;
    }
    if n == 255 {
        return StartOutcome::HeldOff;
    }
    let Some(i) = lowest_choice(t, k, n) else {
        unreachable!();
    };
    StartOutcome::Forced(n as usize, i as i64 - 2)
}

// The reply to choice i at entry k with n turns left; none where there is no reply that holds off.
fn answer_to(t: &[u8; 2193], k: usize, i: usize, n: u8) -> Option<i64>
    requires { (k < 2193) × (i < 5) × (1 ≤ n) × (n ≤ 64) × Holds 64 t.now }
    ensures { result ≡ replying n (state_at k) (room.drive i) }
{
    if t[k] == 0 {
        return None;
    }
    let j = lowest_reply(t, k, i, n)?;
    Some(j as i64 - 1)
}

// What is told of a start.
pub fn outcome(angle: i64, rate: i64) -> Result<StartOutcome, OutOfRange>
    ensures value { result ≡ Room.outcome (record { angle = angle; rate = rate }) }
    ensures outcome_promise { OutcomePromise (record { angle = angle; rate = rate }) result }
{
    let k = entry_of(angle, rate)?;
    Ok(tell(&fill(), k))
}

// What the draught adds in reply to a choice, with 1 to 64 turns left; none where there is no reply that holds off.
pub fn reply(angle: i64, rate: i64, left: usize, choice: i64) -> Result<Option<i64>, OutOfRange>
    ensures value { result ≡ Room.reply (record { angle = angle; rate = rate }) left choice }
    ensures reply_promise { ReplyPromise (record { angle = angle; rate = rate }) left choice result }
{
    let k = entry_of(angle, rate)?;
    let i = counted(choice, -2, 2)?;
    if !(1..=64).contains(&left) {
        return Err(OutOfRange);
    }
    Ok(answer_to(&fill(), k, i, left as u8))
}

// The fewest turns of each start, 255 where it is held off: angle by angle from -64, and of each angle rate by rate from -8.
pub fn region() -> [u8; 2193]
    ensures { result ≡ Room.region }
{
    fill()
}
