// The words of rules, refusals, stops and faults, which stand only here. A line is an entry: a letter (r a rule, n a number of a refusal
// or a stop, f a fault), two decimal digits, a space, and the words, fewer than 100 bytes. To change words, edit them in their line and
// set the number of bytes, in the type and in the clause `length`: a check says which it is.
#![tactic(auto)]

ghost use Rattle.std.specs.Prelude.{◌≡◌, true, length};
ghost use Rattle.phrases.specs.Complete.{complete};

// The table, as crate words reads it.
pub fn table() -> [u8; 1925]
    ensures complete { complete result ≡ true }
    ensures length { 1925 ≡ length result }
{
    *b"\n\
        r00 zero, the start value, is not in the mask of each field and static\n\
        r01 zero is not in the start masks of the result and each non-argument register\n\
        r02 what a register or the result may hold is not in its mask at the next address\n\
        r03 what a register or the result may hold is not in its mask at the jump's target\n\
        r04 what is written is not in the register's mask at the next address\n\
        r05 what is stored is not in the mask of the field or static\n\
        r06 what a call passes is not in the mask of a callee's parameter\n\
        r07 what a callee returns is not in the result after the call\n\
        r08 what is returned (zero for return-void) is not in the method's returned mask\n\
        r09 what a register may hold, or the exception, is not in its mask at the handler\n\
        r10 an exception that no handler takes is not in the method's exception mask\n\
        n01 the panel has more than 65,536 bytes\n\
        n02 a panel line is not one or more pairs of lowercase hex digits and a line end\n\
        n03 a panel frame of unknown kind or wrong length\n\
        n04 a panel frame out of order, missing, or one too many of its kind\n\
        n05 a field value that is not allowed\n\
        n06 a method's last instruction is not goto, return, return-void or throw\n\
        n09 the claim has too many bytes\n\
        n10 a claim line is not one or more pairs of lowercase hex digits and a line end\n\
        n11 a claim frame of unknown kind\n\
        n12 not the claim frame due (by kind, numbers or length), one missing or too many\n\
        n13 a claim mask has a bit that is not allowed\n\
        n20 no space for a new object: 256 are made\n\
        n21 no space for a call: 32 frames are open\n\
        n22 the steps asked for (at most 1,000,000) are made, and the run has not ended\n\
        n23 too little memory is lent\n\
        n24 the address is outside its method\n\
        f02 a number other than zero used as an object\n\
        f03 an object used as a number\n\
        f05 the object's class does not have the field\n\
        f06 the object's class has no virtual method of that name and argument count\n\
        f07 the thrown object is not a Throwable\n\
        "
}
